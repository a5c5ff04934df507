//! The conversion of an input that comes in pieces.
ghost use Rattle.asn1_ber_items.specs.Progress.{HasCome};
ghost use Rattle.asn1_convert.specs.SomeType.{HasNoFront};
ghost use Rattle.asn1_convert.specs.declared.form.CodecForm.TheVariants.{Ber};
ghost use Rattle.std.specs.Prelude.{◌≡◌, ◌++◌, [], false, true, ℕ, drop, IfOk, IfSome, List, MatchOption, OnErr, OnOk};

use crate::form::{CodecForm, OutputForm};
use crate::fronts::front_length;
use crate::task::{Action, Answer, Converted, Task, TypeList};
use asn1_ber_items::{Progress, find_end};
use asn1_items::ItemError;
use std::alloc::{AllocError, Global};

/// Why there is no answer for the octets that came.
#[derive(Clone, Copy, Debug, Drop, PartialEq, Eq)]
pub enum PiecesError {
    /// No type has the name.
    NoType,
    /// Memory ran out.
    Memory,
}

/// The octets of an input that were read and not converted, and how far the conversion came.
///
/// A value is converted as soon as its octets are there. In BER, octets that do not hold a whole value are looked at again from where the
/// search for its end came.
#[derive(Drop)]
pub struct Pieces {
    from: CodecForm,
    to: OutputForm,
    depth: usize,
    octets: Vec<u8>,
    before: Converted,
    /// How far the search for the end of the first element of BER came.
    search: Progress,
}

impl Pieces {
    ghost use Rattle.asn1_convert.specs.Pieces.{Answers, Holds, Waits, unread};
    ghost use Rattle.asn1_convert.specs.Lines.{sum_within};
    ghost use Rattle.asn1_convert.specs.declared.form.CodecForm.{CodecForm};
    ghost use Rattle.asn1_convert.specs.declared.form.OutputForm.{OutputForm};

    /// No octets of values by the codec `from`, to be written in the form `to` with at most this many nested scopes.
    #[tactic(auto, using(crate::proofs::InPieces::holds_nothing))]
    pub fn new(alloc: Global, from: CodecForm, to: OutputForm, depth: usize) -> Pieces
        ensures { Holds from to result [] [] }
    {
        Pieces {
            from,
            to,
            depth,
            octets: Vec::new(alloc),
            before: Converted {
                values: 0,
                octets: 0,
            },
            search: Progress::new(),
        }
    }

    /// Takes the next octets of the input.
    #[tactic(auto, using(crate::proofs::InPieces::holds_more))]
    pub fn append(&mut self, piece: &[u8]) -> Result<(), AllocError>
        ensures ok { OnOk result ((from : CodecForm) (to : OutputForm) (given written : List ℕ) →
            Holds from to self.old given written → Holds from to self.new (given ++ piece.now) written) }
        ensures err { OnErr result (unread self.new ≡ unread self.old) }
    {
        match self.octets.extend_from_slice(piece) {
            Ok(()) => Ok(()),
            Err(error) => Err(error),
        }
    }

    /// The answer for the values that came, for the type of this name; no answer if none is whole and more may come. At the end of the
    /// input it has a failure if that ends inside a value.
    ///
    /// # Errors
    /// [`PiecesError::NoType`] if the list has no type of the name; [`PiecesError::Memory`] if memory runs out.
    pub fn answer<L: TypeList>(
        &mut self,
        alloc: Global,
        name: &str,
        is_end: bool,
    ) -> Result<Option<Answer>, PiecesError>
        ensures { IfOk result (λ next. (from : CodecForm) (to : OutputForm) (given written : List ℕ) →
            Holds from to self.old given written → MatchOption next
            (Waits from to self.new given written)
            (Answers from to self.new is_end given written)) }
    {
        let waits = self.waits(alloc);
        if !is_end && waits {
            return Ok(None);
        }
        let task = Task {
            alloc,
            before: self.before,
            input: &self.octets,
            action: Action::Convert {
                from: self.from,
                to: self.to,
            },
            depth: self.depth,
        };
        let answer = match L::answer(name, task) {
            Some(Ok(answer)) => settled(answer, is_end),
            Some(Err(_)) => return Err(PiecesError::Memory),
            None => return Err(PiecesError::NoType),
        };
        match self.take_out(alloc, answer.converted) {
            Ok(()) => Ok(Some(answer)),
            Err(_) => Err(PiecesError::Memory),
        }
    }

    /// Whether the octets end inside a value.
    fn waits(&mut self, alloc: Global) -> bool
        ensures same { self.new ≡ record self.old { search = self.new.search } }
        ensures searched { ∥ HasCome self.old.search (unread self.old) ∥₁ →
            ∥ HasCome self.new.search (unread self.old) ∥₁ }
        ensures no_front { result ≡ true → ∥ HasCome self.old.search (unread self.old) ∥₁ →
            HasNoFront self.old.from (unread self.old) }
    {
        match self.from {
            CodecForm::Ber => ends_inside_element(&self.octets, &mut self.search),
            form => ends_inside_front(alloc, form, &self.octets),
        }
    }

    /// Takes out what was converted.
    fn take_out(&mut self, alloc: Global, converted: Converted) -> Result<(), AllocError>
        ensures left { OnOk result (unread self.new ≡ drop converted.octets (unread self.old)) }
        ensures values { OnOk result
            (self.new.before.values ≡ sum_within self.old.before.values converted.values) }
        ensures octets { OnOk result
            (self.new.before.octets ≡ sum_within self.old.before.octets converted.octets) }
        ensures from { self.new.from ≡ self.old.from }
        ensures to { self.new.to ≡ self.old.to }
        ensures search { OnOk result ((octets : List ℕ) → HasCome self.new.search octets) }
    {
        let left = self.octets.get(converted.octets..).unwrap_or(&[]);
        let kept = Vec::from_slice(alloc, left)?;
        self.before = self.before.followed_by(converted);
        self.search = Progress::new();
        self.octets = kept;
        Ok(())
    }
}

/// Whether octets end inside the element of BER with which they begin, where a search for its end came so far.
#[tactic(auto, using(crate::proofs::InPieces::element_waits))]
fn ends_inside_element(octets: &[u8], search: &mut Progress) -> bool
    ensures searched { ∥ HasCome search.old octets.now ∥₁ → ∥ HasCome search.new octets.now ∥₁ }
    ensures no_front { result ≡ true → ∥ HasCome search.old octets.now ∥₁ →
        HasNoFront Ber octets.now }
{
    match find_end(octets, search) {
        Err(ItemError::Missing(_)) => true,
        _ => false,
    }
}

/// Whether octets end inside the element or item with which they begin.
fn ends_inside_front(alloc: Global, form: CodecForm, octets: &[u8]) -> bool
    ensures { result ≡ true → HasNoFront form octets.now }
{
    match front_length(alloc, form, octets) {
        Err(ItemError::Missing(_)) => true,
        _ => false,
    }
}

/// An answer, in which it is no failure that the octets end inside a value of which more may come.
fn settled(mut answer: Answer, is_end: bool) -> Answer
    ensures same { result ≡ record answer { failure = result.failure } }
    ensures at_end { is_end ≡ true → result.failure ≡ answer.failure }
    ensures whole { answer.missing ≡ None → result.failure ≡ answer.failure }
    ensures waits { IfSome answer.missing (λ _. is_end ≡ false → result.failure ≡ None) }
{
    if !is_end && answer.missing.is_some() {
        answer.failure = None;
    }
    answer
}
