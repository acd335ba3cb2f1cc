//! The version of the program.

/// The program's version, what it is proved by, and the version of its report.
pub const VERSION: &str = "regaudit 1.0.0
proved by rattle-kit-13f, logic dac8208d650f15bf
formats: report 1
";
