//! What comes in and goes out as JSON.
//!
//! Acts come in as values of JSON. [`read_act`] says which act a value asks for, or why it asks for
//! none, and takes each act exactly as it is written down: no member too many, each text and each
//! number of its form. What is refused here never reaches the office. Of several faults the least
//! is answered: first a text or a shape that is not of its form, then a number out of its range.
//! [`read_acts`] reads an array of them. Answers go out by [`answer_value`], and one a line by
//! [`write_answers`].
//!
//! What the office reports of a record goes out by [`record_value`], what is due on a day by
//! [`due_value`], and what is overdue by [`overdue_value`]. [`answers_value`], [`stopped_value`],
//! [`fault_value`] and [`bad_act_value`] are the replies to a list of acts; [`denied_value`] and
//! [`denial_value`] those to what a name may not do. Each is a value of JSON
//! without a float, so [`text_of`] gives its text.
#![tactic(auto)]

mod acts;
mod answer_lines;
mod answers;
mod content;
mod digits;
mod due_json;
mod lists;
mod member_parts;
mod member_value;
mod members;
mod overdue_json;
mod parts;
mod record_json;
mod replies;
mod targets;

pub use acts::read_act;
pub use answer_lines::{law_of_answer_texts, write_answers};
pub use answers::answer_value;
pub use content::law_of_contents;
pub use due_json::{due_row_value, due_value};
pub use lists::{ListFault, read_acts};
pub use office_rules::{Content, ReadFault};
pub use overdue_json::{overdue_row_value, overdue_value};
pub use record_json::record_value;
pub use replies::{
    DenialText, answers_value, bad_act_value, denial_value, denied_value, fault_value,
    stopped_value, text_of,
};
