//! What the first bytes of a file say about how it can be read.

/// A code, and words that may help.
#[derive(Clone, Copy)]
pub struct Hint {
    pub code: &'static str,
    pub words: &'static str,
}

/// What may help with a file that is not read as it is meant: as a tower file, or as a trace.
pub fn hint_of(text: &[u8], is_tower: bool) -> Option<Hint> {
    if text.starts_with(b"\xef\xbb\xbf") {
        return with_code(
            "H1",
            "it begins with a byte order mark: `tail -c +4 FILE` leaves it out",
        );
    }
    if text.starts_with(b"\x1f\x8b") {
        return with_code("H2", "it is compressed: give `<(zcat FILE)`");
    }
    if text.starts_with(b"\x28\xb5\x2f\xfd") {
        return with_code("H2", "it is compressed: give `<(zstdcat FILE)`");
    }
    if is_json(text) {
        return with_code(
            "H4",
            "it is JSON: docs/CONVERT.md has a line of jq that writes its events as EDN maps",
        );
    }
    if text.starts_with(b"[") || text.starts_with(b"(") {
        return with_code(
            "H3",
            "it is one vector or list: take the outer brackets off",
        );
    }
    if !is_tower && text.starts_with(b"{:levels") {
        return with_code("H7", "it is a tower file: give it with `--tower`");
    }
    if is_tower && text.starts_with(b"{:process") {
        return with_code("H7", "it is a trace: give it without `--tower`");
    }
    None
}

/// Whether it begins with an object of JSON whose first key is a string, or an array with one.
fn is_json(text: &[u8]) -> bool {
    let inner = match text.strip_prefix(b"[") {
        Some(inner) => inner.trim_ascii_start(),
        None => text,
    };
    inner.starts_with(b"{\"")
}

fn with_code(code: &'static str, words: &'static str) -> Option<Hint> {
    Some(Hint { code, words })
}
