//! A picture of a register: its operations, and why it fails.
//!
//! ```text
//! let sketch = Sketch::of(alloc, subject, Extent::Around(3))?;
//! let look = Look { width: 100, is_ascii: false };
//! push_timeline(&mut text, alloc, &sketch, &look)?     // in lines of a terminal
//! push_picture(&mut text, alloc, &sketch, &sheet)?     // as SVG
//! push_page_part(&mut text, alloc, &sketch, &sheet, is_unfolded, report)?     // on a page
//! ```
//!
//! A subject is a register with the operations that stand and the witness. `letter.rt` gives letters to the operations
//! of the witness, by their roles, and to the writes around a wrong read; `rank.rt` says which place each operation has
//! in an order that explains the reads, and `scene.rt` chooses which operations are shown, with their marks and lanes, by
//! the crate `timeline`; `front.rt` cuts from the moments what all begin with. `measure.rt` says how wide things are,
//! `layout.rt` how far right they are. Two files draw that: `text.rt` in lines of cells (`line.rt`, with the characters
//! of `glyphs.rt`), and `svg.rt` on a canvas (`canvas.rt`), with the parts of a picture (`strip.rt`, `bar.rt`, `axis.rt`)
//! and the colours of `colour.rt` and `style.rt`. Both draw the zones of a conflict (`zone.rt`), lanes by process, and the
//! moments below; the moments that the sentences speak of (`told.rt`) come first. `title.rt` has the first line,
//! `caption.rt` the sentences; `page.rt` puts pictures on a page. `filled.rt` fills numbers, words and values into their
//! texts.
//!
//! Begin with `laws.rt`: an operation that is shown stands, and is shown once; those that are shown and those that are
//! counted are all; one that has a letter is shown; of two the first ends left of where the second begins exactly where
//! it precedes it; each label fits in its bar; and a moment is the front and its label. `layout.rt` says what a layout
//! keeps, and `escape.rt` how a text is written.
#![tactic(auto)]

mod axis;
mod bar;
mod canvas;
mod caption;
mod colour;
mod escape;
mod filled;
mod front;
mod glyphs;
mod label;
pub mod laws;
mod layout;
mod letter;
mod line;
mod measure;
mod page;
mod rank;
mod scene;
mod strip;
mod style;
mod subject;
mod svg;
mod text;
mod title;
mod told;
mod zone;

pub use letter::{Letter, Lettered};
pub use page::{push_page_end, push_page_head, push_page_lines, push_page_link, push_page_part};
pub use scene::{Scene, Sketch};
pub use style::Theme;
pub use subject::Subject;
pub use svg::{Sheet, push_picture};
pub use text::{Look, push_timeline};
