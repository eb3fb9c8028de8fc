//! The rules and the view that the types of `basket`, `coupon` and `label` name: what is written by hand after a port.
ghost use Rattle.std.specs.Prelude.{◌==◌, ◌%◌, if◌then◌else◌};
ghost use Rattle.garde.specs.Fields.{None, Some, asks, byte_count, codes, is_some, length, nat_le, own};

use crate::coupon::{Season, Tag};
use garde::fields::{Rule, View};
use garde::{I18n, RuleError};
use garde_schema::{Entries, Items, TextRef};
use std::alloc::Global;
use std::borrow::CowStr;

/// The rule that a number is even.
#[derive(Clone, Copy)]
pub struct IsEven;

impl Rule<u32> for IsEven {
    ghost finds = { λ _ number. if number % 2 == 0 then None else Some (own (codes "not even")) };

    fn find<H: I18n>(&self, alloc: Global, value: &u32, _h: &H) -> Result<(), RuleError> {
        if *value % 2 == 0 {
            Ok(())
        } else {
            Err(RuleError::of(alloc, Ok(CowStr::Borrowed("not even"))))
        }
    }
}

/// The rule that a discount is at most that of the season.
#[derive(Clone, Copy)]
pub struct IsInSeason<'c>(pub &'c Season);

impl Rule<u8> for IsInSeason<'_> {
    ghost finds = { λ rule percent.
        if nat_le percent rule.0.now.most then None else Some (own (codes "not in season")) };

    fn find<H: I18n>(&self, alloc: Global, value: &u8, _h: &H) -> Result<(), RuleError> {
        if *value <= self.0.most {
            Ok(())
        } else {
            Err(RuleError::of(alloc, Ok(CowStr::Borrowed("not in season"))))
        }
    }
}

/// The rule that the terms are accepted.
#[derive(Clone, Copy)]
pub struct CouponTermsRule;

impl Rule<bool> for CouponTermsRule {
    ghost finds = { λ _ accepted. if accepted then None else Some (own (codes "accept the terms")) };

    fn find<H: I18n>(&self, alloc: Global, value: &bool, _h: &H) -> Result<(), RuleError> {
        if *value {
            Ok(())
        } else {
            Err(RuleError::of(alloc, Ok(CowStr::Borrowed("accept the terms"))))
        }
    }
}

/// The rule that a borrowed text has 4 bytes at most.
#[derive(Clone, Copy)]
pub struct IsShort;

impl<'t> Rule<&'t str> for IsShort {
    ghost finds = { λ _ text. if nat_le (byte_count text.now) 4 then None else Some (own (codes "not short")) };

    fn find<H: I18n>(&self, alloc: Global, value: &&'t str, _h: &H) -> Result<(), RuleError> {
        if value.len() <= 4 {
            Ok(())
        } else {
            Err(RuleError::of(alloc, Ok(CowStr::Borrowed("not short"))))
        }
    }
}

/// The rule that there are 4 tags at most.
#[derive(Clone, Copy)]
pub struct HasRoom;

impl<'t> Rule<Items<TextRef<'t>>> for HasRoom {
    ghost finds = { λ _ tags. asks "no room" (nat_le (length tags) 4) };

    fn find<H: I18n>(
        &self,
        alloc: Global,
        value: &Items<TextRef<'t>>,
        _h: &H,
    ) -> Result<(), RuleError> {
        if value.as_slice().len() <= 4 {
            Ok(())
        } else {
            Err(RuleError::of(alloc, Ok(CowStr::Borrowed("no room"))))
        }
    }
}

/// The rule that there are 6 labels at most.
#[derive(Clone, Copy)]
pub struct FitsOnAPage;

impl<'t> Rule<Entries<'t, TextRef<'t>>> for FitsOnAPage {
    ghost finds = { λ _ labels. asks "no page" (nat_le (length labels) 6) };

    fn find<H: I18n>(
        &self,
        alloc: Global,
        value: &Entries<'t, TextRef<'t>>,
        _h: &H,
    ) -> Result<(), RuleError> {
        if value.as_slice().len() <= 6 {
            Ok(())
        } else {
            Err(RuleError::of(alloc, Ok(CowStr::Borrowed("no page"))))
        }
    }
}

/// The rule that an agent has a name.
#[derive(Clone, Copy)]
pub struct IsNamed;

impl<'t> Rule<Option<TextRef<'t>>> for IsNamed {
    ghost finds = { λ _ agent. asks "no name" (is_some agent) };

    fn find<H: I18n>(
        &self,
        alloc: Global,
        value: &Option<TextRef<'t>>,
        _h: &H,
    ) -> Result<(), RuleError> {
        if value.is_some() {
            Ok(())
        } else {
            Err(RuleError::of(alloc, Ok(CowStr::Borrowed("no name"))))
        }
    }
}

/// The view of a tag as its text.
#[derive(Clone, Copy)]
pub struct TagText;

impl View<Tag> for TagText {
    type Seen = String;

    ghost seen = { λ _ tag. tag.0 };

    fn see<'v>(&self, tag: &'v Tag) -> &'v String {
        &tag.0
    }
}
