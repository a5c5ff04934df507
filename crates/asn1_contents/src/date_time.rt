//! DATE-TIME (X.680, 38.4).
ghost use Rattle.std.specs.Prelude.{◌≡◌, ◌++◌, codes, drop, take, IfOk};
ghost use Rattle.asn1_contents.specs.DateTimes.{is_date_time};
ghost use Rattle.asn1_model.specs.Tags.{universal};

use crate::contents_kind::ContentsKind;
use crate::contents_string::ContentsString;
use crate::date::{Date, is_date};
use crate::time_of_day::{TimeOfDay, is_time_of_day};
use asn1_model::TypeTable;
use asn1_tags::{Identifier, tag};
use std::alloc::{AllocError, Global};

/// The kind of DATE-TIME.
#[derive(Drop)]
pub enum DayTime {}

/// A DATE-TIME: a DATE and a TIME-OF-DAY. It is kept as the octets of X.690, 8.26: its fourteen digits, as
/// 20261129180500.
pub type DateTime = ContentsString<DayTime>;

impl ContentsKind for DayTime {
    ghost type_tag = { universal 33 };

    ghost type_name = { codes "DATE_TIME" };

    ghost allows = { is_date_time };

    #[inline(always)]
    fn type_table() -> TypeTable {
        TypeTable::new(tag!(universal 33), Identifier::DATE_TIME)
    }

    fn allows(octets: &[u8]) -> bool {
        octets.len() == 14
            && match octets.split_at_checked(8) {
                Some((date, time)) => is_date(date) && is_time_of_day(time),
                None => false,
            }
    }
}

impl ContentsString<DayTime> {
    /// The DATE-TIME of a date and a time. The error is that of memory.
    #[tactic(auto, using(crate::proofs::DayTimes::front, crate::proofs::DayTimes::back))]
    pub fn from_parts(alloc: Global, date: &Date, time: &TimeOfDay) -> Result<Self, AllocError>
        ensures octets { IfOk result (λ both. both ≡ date.now ++ time.now) }
        ensures date { IfOk result (λ both. take 8 both ≡ date.now) }
        ensures time { IfOk result (λ both. drop 8 both ≡ time.now) }
    {
        let mut octets = date.as_slice().to_vec(alloc)?;
        octets.extend_from_slice(time.as_slice())?;
        made(octets)
    }

    /// Its date. The error is that of memory.
    pub fn date(&self, alloc: Global) -> Result<Date, AllocError>
        ensures { IfOk result (λ date. date ≡ take 8 self.now) }
    {
        match self.as_slice().split_at_checked(8) {
            Some((date, _)) => made(date.to_vec(alloc)?),
            None => Err(AllocError),
        }
    }

    /// Its time. The error is that of memory.
    pub fn time(&self, alloc: Global) -> Result<TimeOfDay, AllocError>
        ensures { IfOk result (λ time. time ≡ drop 8 self.now) }
    {
        match self.as_slice().split_at_checked(8) {
            Some((_, time)) => made(time.to_vec(alloc)?),
            None => Err(AllocError),
        }
    }
}

/// The value with these octets, which are those of one.
fn made<K: ContentsKind>(octets: Vec<u8>) -> Result<ContentsString<K>, AllocError>
    ensures { IfOk result (λ own. own ≡ octets.items) }
{
    match ContentsString::new(octets) {
        Some(own) => Ok(own),
        None => Err(AllocError),
    }
}
