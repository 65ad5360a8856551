//! A write and the text that it needs beside its values are one value, made before a transaction
//! begins.
ghost use Rattle.std.specs.Prelude.{◌≡◌, IfOk};

use crate::texts::needed_text;
use office_base::Memory;
use office_rules::RowWrite;
use std::alloc::Global;
use std::marker::Model;

/// A write with its encoded text: the digits of a digest, or the code or number of a target; of
/// another write the text is empty. Contracts see the write.
#[derive(Drop)]
pub(crate) struct EncodedWrite<'a> {
    pub(crate) write: &'a RowWrite,
    pub(crate) text: String,
}

impl<'a> Model for EncodedWrite<'a> {
    ghost use Rattle.std.specs.Prelude.{◌≡◌};
    ghost use Rattle.std.specs.String.{string_bytes};
    ghost use Rattle.office_rules.specs.contracts.rows.RowWrite as row_write;
    ghost use Rattle.office_rules.specs.declared.rows.RowWrite.{RowWrite as AnyWrite};
    ghost use Rattle.office_store.specs.Written.{needed_text};

    ghost Value = { AnyWrite };

    ghost coded = { row_write.the_row.coded };

    ghost view = { λ it. it.write.now };

    ghost invariant = { λ it. string_bytes it.text ≡ needed_text it.write.now };
}

impl<'a> EncodedWrite<'a> {
    /// The write with its text.
    fn new(alloc: Global, write: &'a RowWrite) -> Result<EncodedWrite<'a>, Memory>
        ensures { IfOk result (λ it. it ≡ write.now) }
    {
        let text = needed_text(alloc, write)?;
        Ok(EncodedWrite { write, text })
    }
}

/// The writes with their texts, in their order.
pub(crate) fn encode_all(
    alloc: Global,
    writes: &[RowWrite],
) -> Result<Vec<EncodedWrite<'_>>, Memory>
    ensures { IfOk result (λ encoded. encoded.items ≡ writes.now) }
{
    let mut encoded = Vec::with_capacity(alloc, writes.len())?;
    for write in writes {
        encoded.push(EncodedWrite::new(alloc, write)?)?;
    }
    Ok(encoded)
}
