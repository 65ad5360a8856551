//! Record heads, with the reviews, confirmations and receipts in them.
ghost use Rattle.std.specs.Prelude.{◌≡◌, IfOk, None, OnOk};

use crate::code::copy_code;
use crate::text::copy_both;
use crate::{Action, AggNo, Code, Text};
use office_base::Memory;
use office_days::{Day, DueDay};
use std::alloc::Global;

/// The number of a record: 1, 2, .. in the order of addition.
pub type RecordNo = u32;

/// The last review of a record: its day, and who reviewed.
#[derive(Drop)]
pub struct Review {
    pub day: Day,
    pub by: Text,
}

/// A confirmation of disposal: the action and the due day that were confirmed, when and by whom.
#[derive(Drop)]
pub struct Confirmation {
    pub action: Action,
    pub due: DueDay,
    pub day: Day,
    pub by: Text,
}

/// A receiver's receipt for a record that was sent: its day, and who reported it.
#[derive(Drop)]
pub struct Receipt {
    pub day: Day,
    pub by: Text,
}

/// A record's head: all that the office keeps of a record but its content and its status, which
/// is beside it. `length` is the content's, in bytes; `digest` is its SHA-256. The originated
/// day is compared with no other day.
#[derive(Drop)]
pub struct Record {
    pub ref_text: Text,
    pub title: Text,
    pub originated: Day,
    pub added: Day,
    pub aggregation: AggNo,
    pub class: Option<Code>,
    pub schedule: Option<Code>,
    pub length: u32,
    pub digest: [u8; 32],
    pub review: Option<Review>,
    pub confirmation: Option<Confirmation>,
    pub receipt: Option<Receipt>,
}

impl Review {
    /// A second review that is equal to this one; `Memory` where there is none for it.
    pub fn copy(&self, alloc: Global) -> Result<Review, Memory>
        ensures { IfOk result (λ r. r ≡ self.now) }
    {
        Ok(Review {
            day: self.day,
            by: self.by.copy(alloc)?,
        })
    }
}

impl Confirmation {
    /// A second confirmation that is equal to this one; `Memory` where there is none for it.
    pub fn copy(&self, alloc: Global) -> Result<Confirmation, Memory>
        ensures { IfOk result (λ c. c ≡ self.now) }
    {
        Ok(Confirmation {
            action: self.action,
            due: self.due,
            day: self.day,
            by: self.by.copy(alloc)?,
        })
    }
}

impl Receipt {
    /// A second receipt that is equal to this one; `Memory` where there is none for it.
    pub fn copy(&self, alloc: Global) -> Result<Receipt, Memory>
        ensures { IfOk result (λ r. r ≡ self.now) }
    {
        Ok(Receipt {
            day: self.day,
            by: self.by.copy(alloc)?,
        })
    }
}

/// A second review that is equal to this one, if there is one.
fn copy_review(alloc: Global, review: &Option<Review>) -> Result<Option<Review>, Memory>
    ensures { IfOk result (λ r. r ≡ review.now) }
{
    match review {
        Some(review) => Ok(Some(review.copy(alloc)?)),
        None => Ok(None),
    }
}

/// A second confirmation that is equal to this one, if there is one.
fn copy_confirmation(
    alloc: Global,
    confirmation: &Option<Confirmation>,
) -> Result<Option<Confirmation>, Memory>
    ensures { IfOk result (λ c. c ≡ confirmation.now) }
{
    match confirmation {
        Some(confirmation) => Ok(Some(confirmation.copy(alloc)?)),
        None => Ok(None),
    }
}

/// A second receipt that is equal to this one, if there is one.
fn copy_receipt(alloc: Global, receipt: &Option<Receipt>) -> Result<Option<Receipt>, Memory>
    ensures { IfOk result (λ r. r ≡ receipt.now) }
{
    match receipt {
        Some(receipt) => Ok(Some(receipt.copy(alloc)?)),
        None => Ok(None),
    }
}

/// Gives the copy a class and a schedule that are equal to the head's.
fn copy_plan(alloc: Global, head: &Record, copy: &mut Record) -> Result<(), Memory>
    ensures { OnOk result
        (copy.new ≡ record copy.old { class = head.now.class; schedule = head.now.schedule }) }
{
    copy.class = copy_code(alloc, &head.class)?;
    copy.schedule = copy_code(alloc, &head.schedule)?;
    Ok(())
}

/// Gives the copy a review, a confirmation and a receipt that are equal to the head's.
fn copy_documents(alloc: Global, head: &Record, copy: &mut Record) -> Result<(), Memory>
    ensures { OnOk result
        (copy.new
        ≡ record copy.old {
          review = head.now.review;
          confirmation = head.now.confirmation;
          receipt = head.now.receipt;
        }) }
{
    copy.review = copy_review(alloc, &head.review)?;
    copy.confirmation = copy_confirmation(alloc, &head.confirmation)?;
    copy.receipt = copy_receipt(alloc, &head.receipt)?;
    Ok(())
}

/// Gives the copy all that the head may lack, equal to the head's.
fn copy_optional(alloc: Global, head: &Record, copy: &mut Record) -> Result<(), Memory>
    ensures { OnOk result
        (copy.new
        ≡ record copy.old {
          class = head.now.class;
          schedule = head.now.schedule;
          review =
              head.now.review;
          confirmation = head.now.confirmation;
          receipt =
              head.now.receipt;
        }) }
{
    copy_plan(alloc, head, copy)?;
    copy_documents(alloc, head, copy)
}

impl Record {
    /// A second head that is equal to this one; `Memory` where there is none for it.
    pub fn copy(&self, alloc: Global) -> Result<Record, Memory>
        ensures { IfOk result (λ r. r ≡ self.now) }
    {
        let mut copy = self.copy_bare(alloc)?;
        copy_optional(alloc, self, &mut copy).and(Ok(copy))
    }

    /// A second head that is equal to this one but for its class, its schedule and its required
    /// documents, of which it has none.
    fn copy_bare(&self, alloc: Global) -> Result<Record, Memory>
        ensures { IfOk result
            (λ r. r
            ≡ record self.now {
              class = None;
              schedule = None;
              review = None;
              confirmation =
                  None;
              receipt = None;
            }) }
    {
        let (ref_text, title) = copy_both(alloc, &self.ref_text, &self.title)?;
        Ok(Record {
            ref_text,
            title,
            originated: self.originated,
            added: self.added,
            aggregation: self.aggregation,
            class: None,
            schedule: None,
            length: self.length,
            digest: self.digest,
            review: None,
            confirmation: None,
            receipt: None,
        })
    }
}
