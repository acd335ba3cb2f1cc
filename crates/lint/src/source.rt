//! A file of which findings are printed.

/// A file: the name under which it is printed, and its bytes.
#[derive(Clone, Copy)]
pub struct SourceText<'t> {
    pub name: &'t str,
    pub text: &'t [u8],
}
