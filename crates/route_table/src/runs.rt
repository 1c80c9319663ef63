//! The runs of a family: spans of addresses with one hop number.
ghost use Rattle.std.specs.Prelude.{◌≡◌, ℕ, ◌+◌, ◌<◌, ◌≤◌, ◌^◌, MatchOption, All, None, Some, map, false, true, ⊤};
ghost use Rattle.ipnet_addr.specs.Addresses.{width};
ghost use Rattle.ipnet_blocks.specs.Blocks.{last, family_block};
ghost use Rattle.route_table.specs.InnerRunning.{AreRuns, GivesRun, IsPast, StepsRun, coming, hops_left, innermost, joined, topmost, route_span_of, step_of};
ghost use Rattle.route_laws.specs.Tables.{IsTable};

use crate::address_number::AddressNumber;
use crate::family::FamilyNet;
use crate::family_routes::FamilyRoutes;
use arrayvec::ArrayVec;
use ipnet_addr::key::Key;
use ipnet_blocks::aggregate::Span;
use std::alloc::AllocError;
use std::marker::Model;

/// The span of a route's addresses, its length, and the number of its hop.
#[derive(Copy)]
struct RouteSpan<N: Key> {
    first: AddressNumber<N>,
    last: AddressNumber<N>,
    number: Option<u32>,
    len: u8,
}

impl<N: Key> Model for RouteSpan<N> {
    ghost use Rattle.route_table.specs.InnerRouteSpans.{RouteSpan};

    ghost Value = { RouteSpan };

    ghost view = { λ a. record { first = a.first; last = a.last; len = a.len; number = a.number } };

    ghost inverse = { λ r. record { first = r.first; last = r.last; len = r.len; number = r.number } };
}

impl<N: Key> Clone for RouteSpan<N> {
    ghost is_clone = { λ r s. s ≡ r };

    ghost is_infallible = { λ _. ⊤ };

    fn clone(&self) -> Result<RouteSpan<N>, AllocError> {
        Ok(*self)
    }
}

/// The default stands in for a free place of the stack.
impl<N: Key> Default for RouteSpan<N> {
    ghost is_default = { λ _. ⊤ };

    fn default() -> RouteSpan<N> {
        RouteSpan {
            first: AddressNumber::of(0),
            last: AddressNumber::of(0),
            len: 0,
            number: None,
        }
    }
}

/// A span whose addresses have one hop number.
#[derive(Copy)]
pub(crate) struct Run<N: Key> {
    first: AddressNumber<N>,
    last: AddressNumber<N>,
    number: u32,
}

impl<N: Key> Model for Run<N> {
    ghost use Rattle.route_table.specs.InnerRouteSpans.{Run};

    ghost Value = { Run };

    ghost view = { λ a. record { span = record { first = a.first; last = a.last }; number = a.number } };

    ghost inverse = { λ r. record { first = r.span.first; last = r.span.last; number = r.number } };
}

impl<N: Key> Clone for Run<N> {
    ghost is_clone = { λ r s. s ≡ r };

    ghost is_infallible = { λ _. ⊤ };

    fn clone(&self) -> Result<Run<N>, AllocError> {
        Ok(*self)
    }
}

impl<N: Key> Run<N> {
    /// The first and the last number.
    #[inline]
    pub(crate) fn span(&self) -> Span
        ensures value { result ≡ self.now.span }
        ensures first { result.first < 2 ^ N.width }
        ensures last { result.last < 2 ^ N.width }
    {
        Span {
            first: self.first.number(),
            last: self.last.number(),
        }
    }

    /// The run extended to end at this number.
    #[inline]
    fn up_to(&self, last: AddressNumber<N>) -> Run<N>
        ensures { result ≡ record { span = record { first = self.now.span.first; last = last }; number = self.now.number } }
    {
        Run {
            first: self.first,
            last,
            number: self.number,
        }
    }

    /// The hop number.
    #[inline]
    pub(crate) fn number(&self) -> u32
        ensures { result ≡ self.now.number }
    {
        self.number
    }
}

/// Takes the next route.
#[inline]
fn next_route_span<P: FamilyNet>(routes: &mut FamilyRoutes<'_, P>) -> Option<RouteSpan<P::R>>
    ensures { coming result routes.new ≡ map route_span_of routes.old }
{
    let (net, hop, _) = routes.next_net()?;
    Some(RouteSpan {
        first: AddressNumber::of_key(net.first_key()),
        last: AddressNumber::of_key(net.last_key()),
        len: net.prefix_len(),
        number: hop.number(),
    })
}

/// A walk over the routes of one family. It holds the routes that are open at a place, the routes that follow, and the run that ends
/// just before the place.
#[derive(Drop)]
pub(crate) struct Runs<'a, P: FamilyNet> {
    at: AddressNumber<P::R>,
    end: AddressNumber<P::R>,
    done: bool,
    run: Option<Run<P::R>>,
    stack: ArrayVec<RouteSpan<P::R>, 129>,
    next: Option<RouteSpan<P::R>>,
    rest: FamilyRoutes<'a, P>,
}

/// The effect of a step on the runs.
enum Step<N: Key> {
    Run(Run<N>),
    Passed,
    Done,
}

/// Adds a span with this hop number. The span begins right after the current run; it extends the run or ends it.
#[inline]
fn join<N: Key>(
    run: &mut Option<Run<N>>,
    first: AddressNumber<N>,
    last: AddressNumber<N>,
    number: Option<u32>,
) -> Step<N>
    ensures run { run.new ≡ (joined run.old (record { first = first; last = last }) number).1 }
    ensures step { result ≡ step_of (joined run.old (record { first = first; last = last }) number).0 }
{
    let ended = *run;
    let Some(number) = number else {
        *run = None;
        return step_of(ended);
    };
    match ended {
        Some(before) => follow(run, before, first, last, number),
        None => {
            *run = Some(Run {
                first,
                last,
                number,
            });
            Step::Passed
        }
    }
}

/// Adds a span with this hop number, which begins right after the run `before`; it extends the run or ends it.
#[inline]
fn follow<N: Key>(
    run: &mut Option<Run<N>>,
    before: Run<N>,
    first: AddressNumber<N>,
    last: AddressNumber<N>,
    number: u32,
) -> Step<N>
    ensures run { run.new ≡ (joined (Some before) (record { first = first; last = last }) (Some number)).1 }
    ensures step { result ≡ step_of (joined (Some before) (record { first = first; last = last }) (Some number)).0 }
{
    if before.number() == number {
        *run = Some(before.up_to(last));
        Step::Passed
    } else {
        *run = Some(Run {
            first,
            last,
            number,
        });
        Step::Run(before)
    }
}

/// The step that returns a run, if one ended.
#[inline]
fn step_of<N: Key>(ended: Option<Run<N>>) -> Step<N>
    ensures { result ≡ step_of ended }
{
    match ended {
        Some(run) => Step::Run(run),
        None => Step::Passed,
    }
}

impl<'a, P: FamilyNet> Runs<'a, P> {
    /// Makes the walk over the routes of a family.
    pub(crate) fn new(rest: FamilyRoutes<'a, P>) -> Runs<'a, P>
        requires routes { IsTable rest }
        requires family { All (λ r. r.block.family ≡ P.family) rest }
        ensures runs { AreRuns result }
        ensures end { result.end ≡ last (family_block P.family) }
        ensures hops { (x : ℕ) → hops_left result x ≡ topmost None (map route_span_of rest.entry) x }
    {
        let mut runs = Runs {
            at: AddressNumber::of(0),
            end: AddressNumber::greatest(),
            done: false,
            run: None,
            stack: ArrayVec::new(),
            next: None,
            rest,
        };
        runs.advance();
        runs
    }

    /// Takes the next route from the iterator.
    fn advance(&mut self)
        ensures at { self.new.at ≡ self.old.at }
        ensures end { self.new.end ≡ self.old.end }
        ensures done { self.new.done ≡ self.old.done }
        ensures run { self.new.run ≡ self.old.run }
        ensures stack { self.new.stack ≡ self.old.stack }
        ensures next { coming self.new.next self.new.rest ≡ map route_span_of self.old.rest }
    {
        self.next = next_route_span(&mut self.rest);
    }

    /// The last number of the innermost open route, or of the family if none is open, and its hop number.
    #[inline]
    fn innermost(&self) -> (AddressNumber<P::R>, Option<u32>)
        ensures { result ≡ innermost (self.now.end, None) self.now.stack.items }
    {
        match self.stack.as_slice().last() {
            Some(reach) => (reach.last, reach.number),
            None => (self.end, None),
        }
    }

    /// The next route, if it begins at this number or before.
    #[inline]
    fn next_up_to(&self, last: AddressNumber<P::R>) -> Option<RouteSpan<P::R>>
        ensures { MatchOption result (MatchOption self.now.next ⊤ (λ r. last < r.first)) (λ r. (self.now.next ≡ Some r) × (r.first ≤ last)) }
    {
        let reach = self.next?;
        if reach.first.number() <= last.number() {
            Some(reach)
        } else {
            None
        }
    }

    /// Handles the next route, which begins before the innermost open route ends. If it has the hop number around it, it changes nothing
    /// and is skipped. Else the walk advances to its start, or opens it if it is there.
    #[inline]
    fn begin(&mut self, reach: RouteSpan<P::R>, number: Option<u32>) -> Step<P::R>
        requires runs { AreRuns self.old }
        requires going { self.old.done ≡ false }
        requires next { self.old.next ≡ Some reach }
        requires number { number ≡ (innermost (self.old.end, None) self.old.stack.items).1 }
        requires inside { reach.first ≤ (innermost (self.old.end, None) self.old.stack.items).0 }
        ensures runs { AreRuns self.new }
        ensures end { self.new.end ≡ self.old.end }
        ensures step { StepsRun self.old result self.new }
    {
        if reach.number == number {
            self.advance();
            return Step::Passed;
        }
        let start = self.at;
        let first = reach.first;
        if start.number() < first.number() {
            self.at = first;
            let last = AddressNumber::of(first.number() - 1);
            return join(&mut self.run, start, last, number);
        }
        self.open(reach)
    }

    /// Opens the next route, which begins at the place. If it contains no other route, it is closed at once.
    #[inline]
    fn open(&mut self, reach: RouteSpan<P::R>) -> Step<P::R>
        requires runs { AreRuns self.old }
        requires going { self.old.done ≡ false }
        requires next { self.old.next ≡ Some reach }
        requires here { self.old.at ≡ reach.first }
        requires inside { reach.first ≤ (innermost (self.old.end, None) self.old.stack.items).0 }
        ensures runs { AreRuns self.new }
        ensures end { self.new.end ≡ self.old.end }
        ensures step { StepsRun self.old result self.new }
    {
        self.advance();
        if let Some(after) = self.before_next(reach.last) {
            self.at = after;
            return join(&mut self.run, reach.first, reach.last, reach.number);
        }
        // Copied field by field. A copy of the whole would load bytes that were just written in other sizes, and wait for the writes.
        self.stack.push(RouteSpan {
            first: reach.first,
            last: reach.last,
            len: reach.len,
            number: reach.number,
        });
        Step::Passed
    }

    /// The number after this one, if the next route begins later than `last` and the family doesn't end there.
    #[inline]
    fn before_next(&self, last: AddressNumber<P::R>) -> Option<AddressNumber<P::R>>
        ensures { MatchOption result ⊤ (λ n. (n ≡ last + 1) × (last < self.now.end) × MatchOption self.now.next ⊤ (λ r. last < r.first)) }
    {
        if self.end.number() <= last.number() {
            return None;
        }
        match self.next_up_to(last) {
            Some(_) => None,
            None => Some(AddressNumber::of(last.number() + 1)),
        }
    }

    /// Moves past the end of the innermost open route, or of the family.
    #[inline]
    fn pass(&mut self, last: AddressNumber<P::R>)
        ensures end { self.new.end ≡ self.old.end }
        ensures run { self.new.run ≡ self.old.run }
        ensures next { self.new.next ≡ self.old.next }
        ensures rest { self.new.rest ≡ self.old.rest }
        ensures passed { IsPast self.old last self.new }
    {
        if last.number() < self.end.number() {
            self.at = AddressNumber::of(last.number() + 1);
            self.stack.pop();
        } else {
            self.done = true;
        }
    }

    /// Closes the innermost open route, or the family, which ends before the next route begins.
    #[inline]
    fn close(&mut self, last: AddressNumber<P::R>, number: Option<u32>) -> Step<P::R>
        requires runs { AreRuns self.old }
        requires going { self.old.done ≡ false }
        requires innermost { (last, number) ≡ innermost (self.old.end, None) self.old.stack.items }
        requires apart { MatchOption self.old.next ⊤ (λ r. last < r.first) }
        ensures runs { AreRuns self.new }
        ensures end { self.new.end ≡ self.old.end }
        ensures step { StepsRun self.old result self.new }
    {
        let start = self.at;
        self.pass(last);
        if last.number() < start.number() {
            return Step::Passed;
        }
        join(&mut self.run, start, last, number)
    }

    /// Returns the last run, when the whole family is done.
    fn finish(&mut self) -> Step<P::R>
        requires runs { AreRuns self.old }
        requires done { self.old.done ≡ true }
        ensures runs { AreRuns self.new }
        ensures end { self.new.end ≡ self.old.end }
        ensures step { StepsRun self.old result self.new }
    {
        let run = self.run;
        self.run = None;
        match run {
            Some(run) => Step::Run(run),
            None => Step::Done,
        }
    }

    /// Makes one step.
    #[inline]
    fn step(&mut self) -> Step<P::R>
        requires { AreRuns self.old }
        ensures runs { AreRuns self.new }
        ensures end { self.new.end ≡ self.old.end }
        ensures step { StepsRun self.old result self.new }
    {
        if self.done {
            return self.finish();
        }
        let (last, number) = self.innermost();
        match self.next_up_to(last) {
            Some(reach) => self.begin(reach, number),
            None => self.close(last, number),
        }
    }

    /// Returns the next run.
    pub(crate) fn next(&mut self) -> Option<Run<P::R>>
        requires { AreRuns self.old }
        ensures runs { AreRuns self.new }
        ensures end { self.new.end ≡ self.old.end }
        ensures run { GivesRun self.old result self.new }
    {
        'step: loop {
            match self.step() {
                Step::Run(run) => return Some(run),
                Step::Done => return None,
                Step::Passed => {}
            }
        }
    }
}
