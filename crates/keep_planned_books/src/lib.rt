//! Laws alone, without code: no history whose changes are planned loses a blob, whichever of them are undone and made
//! again, nor does any answer to a line that is planned.
#![tactic(auto)]

mod book_laws;
mod lines;
mod selected;
mod sound_books;

pub use book_laws::{
    jobs_are_said_in_texts, planned_changes_keep_whole, planned_histories_lose_nothing,
};
pub use lines::planned_lines_lose_nothing;
pub use selected::planned_selections_are_whole;
pub use sound_books::{
    books_are_sound, books_begin_sound, books_stay_sound, selections_of_books_are_sound,
    views_know_what_books_know,
};
