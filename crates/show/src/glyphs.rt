//! The characters that a timeline is drawn with.

/// Characters of one cell each.
#[derive(Drop)]
pub struct Glyphs {
    /// The line of a bar that has a letter.
    pub bold: char,
    /// The line of another bar.
    pub thin: char,
    /// The line of an unfinished operation.
    pub dots: char,
    /// A moment that the caption speaks of.
    pub drop: char,
    /// Where operations are left out.
    pub fold: char,
    /// Right of a read that returned what it may not.
    pub cross: char,
    /// Zones: their ends, and the line between.
    pub left_end: char,
    pub left_head: char,
    pub right_end: char,
    pub right_head: char,
    pub forward: char,
    pub backward: char,
    /// Before the number of operations left out at the beginning, and after that at the end.
    pub earlier: &'static str,
    pub later: &'static str,
}

pub static DRAWN: Glyphs = Glyphs {
    bold: '═',
    thin: '─',
    dots: '╌',
    drop: '┊',
    fold: '~',
    cross: '✗',
    left_end: '├',
    left_head: '◀',
    right_end: '┤',
    right_head: '▶',
    forward: '─',
    backward: '╌',
    earlier: "←",
    later: "→",
};

pub static ASCII: Glyphs = Glyphs {
    bold: '=',
    thin: '-',
    dots: '.',
    drop: ':',
    fold: '~',
    cross: 'X',
    left_end: '|',
    left_head: '<',
    right_end: '|',
    right_head: '>',
    forward: '=',
    backward: '-',
    earlier: "<-",
    later: "->",
};
