//! The texts of the samples' labels, each looked up once a profile.

use crate::messages::push_label;
use crate::named::numbers_of;
use crate::texts::Texts;
use std::alloc::{AllocError, Global};

/// The numbers of a label's key and of its texts.
#[derive(Drop)]
pub(crate) struct Labels {
    key: u64,
    texts: Vec<u64>,
}

/// The number at a place, if there is one.
fn number_at(numbers: &[u64], place: u32) -> Option<u64>
    ensures { result ≡ slice_get numbers.now place }
{
    if (place as usize) < numbers.len() {
        Some(numbers[place as usize])
    } else {
        None
    }
}

impl Labels {
    /// The labels with this key and one of these texts. The error is lack of memory.
    pub(crate) fn new(
        alloc: Global,
        texts: &Texts<'_>,
        key: &str,
        list: &[String],
    ) -> Result<Labels, AllocError>
        ensures { IfOk result (AreLabels (strings_in texts.now) key.now list.now) }
    {
        let numbers = numbers_of(alloc, texts, list)?;
        Ok(Labels {
            key: texts.number(key),
            texts: numbers,
        })
    }

    /// Appends the label with the text at a place, if there is one. `inner` is room for it. The error is lack of memory.
    pub(crate) fn push(
        &self,
        out: &mut Vec<u8>,
        inner: &mut Vec<u8>,
        place: u32,
    ) -> Result<(), AllocError>
        ensures { OnOk result (out.new.items ≡ out.old.items ++ numbered_label self.now.key (slice_get self.now.texts.items place)) }
    {
        push_label(out, inner, self.key, number_at(&self.texts, place))
    }
}

ghost use Rattle.std.specs.Prelude.{◌≡◌, ◌++◌, slice_get, IfOk, OnOk};
ghost use Rattle.ti_pprof.specs.Labels.{AreLabels, numbered_label};
ghost use Rattle.ti_pprof.specs.Strings.{strings_in};
