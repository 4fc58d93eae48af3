//! Where something is in a document, as a path.

use itoa::Buffer;
use std::alloc::{AllocError, Global};
use ti_script::MemberName;

/// A place in a document: the document, a member, or what stands in a member's array, by up to three numbers counted from 0.
#[derive(Clone, Copy, Debug, PartialEq, Eq)]
pub struct Place {
    pub member: Option<MemberName>,
    pub first: Option<usize>,
    pub second: Option<usize>,
    pub third: Option<usize>,
}

impl Place {
    /// The whole document.
    pub(crate) fn document() -> Self
        ensures { result ≡ document }
    {
        Place {
            member: None,
            first: None,
            second: None,
            third: None,
        }
    }

    /// A member.
    #[tactic(auto, using(crate::proofs::ItemLaws::member_in_head))]
    pub(crate) fn of_member(member: MemberName) -> Self
        ensures place { result ≡ in_member member None None None }
        ensures head { IsInHead result }
    {
        Place {
            member: Some(member),
            first: None,
            second: None,
            third: None,
        }
    }

    /// An element of a member's array.
    pub(crate) fn of_element(member: MemberName, first: usize) -> Self
        ensures { result ≡ in_member member (Some first) None None }
    {
        Place {
            member: Some(member),
            first: Some(first),
            second: None,
            third: None,
        }
    }

    /// An element of an array of the head. Of `events` and `entries`, whose elements are no part of the head, the whole array.
    #[tactic(auto, using(crate::proofs::ItemLaws::place_in_head))]
    pub(crate) fn in_head(member: MemberName, number: usize) -> Self
        ensures place { result ≡ head_place member number }
        ensures head { IsInHead result }
    {
        match member {
            MemberName::Events | MemberName::Entries => Place::of_member(member),
            _ => Place::of_element(member, number),
        }
    }

    /// The path, as `events[2][1]` or `limits.depth`.
    pub fn text(&self, alloc: Global) -> Result<String, AllocError>
        ensures { IfOk result (λ text. string_bytes text ≡ place_text self.now) }
    {
        let mut text = String::new(alloc);
        let front = match self.member {
            Some(member) => member.text(),
            None => "document",
        };
        text.push_str(front)?;
        put_step(&mut text, self.first)?;
        put_step(&mut text, self.second)?;
        put_step(&mut text, self.third)?;
        Ok(text)
    }
}

/// Adds one step of a path, if there is one.
fn put_step(text: &mut String, step: Option<usize>) -> Result<(), AllocError>
    ensures { OnOk result (string_bytes text.new ≡ string_bytes text.old ++ step_text step) }
{
    let Some(number) = step else {
        return Ok(());
    };
    let mut digits = Buffer::new();
    text.push_str("[")?;
    text.push_str(digits.format(number))?;
    text.push_str("]")
}

ghost use Rattle.std.specs.Prelude.{◌≡◌, ◌++◌, Some, None, IfOk, OnOk, string_bytes};
ghost use Rattle.tilint.specs.Places.{document, in_member, head_place, IsInHead, place_text, step_text};
