//! The words of a call of `show`.

use command_parts::{push_moment_words, push_option, push_tower_words, push_trace_words};
use std::alloc::AllocError;
use texts::VERSION;
use words::{Picture, Show, ThemeWord};

/// Adds the program with its version, and the words that ask for the same.
pub fn push_call(text: &mut String, asked: &Show) -> Result<(), AllocError> {
    text.push_str(first_line(VERSION))?;
    text.push_str(": show")?;
    text.push_str(word_of(asked.picture))?;
    push_tower_words(text, asked.tower)?;
    push_moment_words(text, asked.moments)?;
    if let Some(name) = asked.register {
        push_option(text, "register", name)?;
    }
    push_extent(text, asked)?;
    if let Some(theme) = theme_word(asked.theme) {
        push_option(text, "theme", theme)?;
    }
    push_trace_words(text, &asked.traces)
}

fn first_line(text: &str) -> &str {
    match text.split_once('\n') {
        Some((line, _)) => line,
        None => text,
    }
}

fn word_of(picture: Picture) -> &'static str {
    match picture {
        Picture::Text => "",
        Picture::Ascii => " --ascii",
        Picture::Svg => " --svg",
        Picture::Html => " --html",
    }
}

/// How many operations are shown, and how wide.
fn push_extent(text: &mut String, asked: &Show) -> Result<(), AllocError> {
    if asked.around != 3 {
        write!(text, " --around {}", asked.around)?;
    }
    if asked.all {
        text.push_str(" --all")?;
    }
    match asked.width {
        Some(width) => write!(text, " --width {width}"),
        None => Ok(()),
    }
}

fn theme_word(theme: ThemeWord) -> Option<&'static str> {
    match theme {
        ThemeWord::Auto => None,
        ThemeWord::Light => Some("light"),
        ThemeWord::Dark => Some("dark"),
    }
}
