//! The exchangers, with the request that waits at each.
ghost use Rattle.std.specs.Prelude.{◌≡◌, IfOk, None, Some, length};
ghost use Rattle.rv_dual.specs.Above.{first_above, is_above};
ghost use Rattle.rv_text.specs.Limits.{FitsSide};
ghost use Rattle.rv_text.specs.declared.call.Side.TheVariants.{Exchanges};
ghost use Rattle.rv_model_queues.specs.Meeting.{Exchanged, LeftExchanger};
ghost use Rattle.rv_model_queues.specs.Views.{AllFree, OnlyExchanger, exchanger_at, place_of_duty};

use crate::outcome::Arrived;
use rv_account::lasts;
use rv_session::{Duty, Place};
use rv_swap::{Swap, SwapOutcome, SwapTry};
use rv_text::{MAX_EXCHANGER, NoMemory, Wait};
use std::alloc::Global;
use std::marker::Model;

// Two met at an exchanger, the earlier one and the one that arrives now.
fn swapped(earlier: Duty, later: Duty) -> Arrived
    ensures { result ≡ record {
      partner = Some earlier.place;
      own = Some later;
      other = Some earlier;
    } }
{
    Arrived::met(earlier.place(), Some(later), Some(earlier))
}

// A request arrives at an exchanger: if none waits there it waits itself, or goes.
fn exchange(exchanger: &mut Swap, wait: Wait, duty: Duty) -> Arrived
    ensures { Exchanged exchanger.old exchanger.new wait duty result }
{
    if lasts(wait) {
        match exchanger.arrive(duty) {
            SwapOutcome::Met(earlier, later) => swapped(earlier, later),
            SwapOutcome::Parked => Arrived::alone(None),
        }
    } else {
        match exchanger.try_arrive(duty) {
            SwapTry::Met(earlier, later) => swapped(earlier, later),
            SwapTry::Alone(duty) => Arrived::alone(Some(duty)),
        }
    }
}

// Lays a request at an exchanger where none waits.
fn lay(exchanger: &mut Swap, duty: Duty)
    requires { exchanger.old ≡ None }
    ensures { exchanger.new ≡ Some duty }
{
    match exchanger.arrive(duty) {
        SwapOutcome::Met(_earlier, _later) => unreachable!(),
        SwapOutcome::Parked => {}
    }
}

// Whether a place is above another, or above none.
fn is_above(after: Option<Place>, place: Place) -> bool
    ensures { result ≡ is_above after place }
{
    match after {
        None => true,
        Some(least) => least < place,
    }
}

/// All exchangers, by their numbers.
#[derive(Drop)]
pub(crate) struct Exchangers {
    exchangers: Vec<Swap>,
}

impl Model for Exchangers {
    ghost use Rattle.rv_session.specs.OwedDuty.{OwedDuty};
    ghost use Rattle.std.specs.Prelude.{◌≡◌, List, Option, length};

    ghost Value = { List (Option OwedDuty) };

    ghost view = { λ e. e.exchangers.items };

    ghost invariant = { λ e. length e.exchangers.items ≡ 64 };
}

impl Exchangers {
    /// 64 exchangers at which no request waits.
    pub(crate) fn empty(alloc: Global) -> Result<Exchangers, NoMemory>
        ensures { IfOk result AllFree }
    {
        let count = MAX_EXCHANGER as usize + 1;
        let mut exchangers = Vec::new(alloc);
        for _ in 0..count {
            exchangers.push(Swap::new())?;
        }
        Ok(Exchangers { exchangers })
    }

    /// How many wait at an exchanger.
    pub(crate) fn count(&self, exchanger: u64) -> usize
        requires { FitsSide (Exchanges exchanger) }
        ensures { result ≡ length (place_of_duty (exchanger_at self.now exchanger)) }
    {
        usize::from(self.exchangers[exchanger as usize].waiting().is_some())
    }

    /// The place of the request that waits at an exchanger, if it is above another place.
    pub(crate) fn behind(&self, exchanger: u64, after: Option<Place>) -> Option<Place>
        requires { FitsSide (Exchanges exchanger) }
        ensures { result ≡ first_above after (place_of_duty (exchanger_at self.now exchanger)) }
    {
        let place = self.exchangers[exchanger as usize].waiting()?;
        if is_above(after, place) {
            return Some(place);
        }
        None
    }

    /// An arrival meets the one that waits at the exchanger, which leaves. If none does, it waits, if its
    /// wait lasts.
    pub(crate) fn exchange(&mut self, exchanger: u64, wait: Wait, duty: Duty) -> Arrived
        requires { FitsSide (Exchanges exchanger) }
        ensures exchanged { Exchanged (exchanger_at self.old exchanger) (exchanger_at self.new exchanger) wait
            duty result }
        ensures others { OnlyExchanger exchanger self.old self.new }
    {
        exchange(&mut self.exchangers[exchanger as usize], wait, duty)
    }

    /// Adds a request at an exchanger where none waits.
    pub(crate) fn lay(&mut self, exchanger: u64, duty: Duty)
        requires fits { FitsSide (Exchanges exchanger) }
        requires free { exchanger_at self.old exchanger ≡ None }
        ensures laid { exchanger_at self.new exchanger ≡ Some duty }
        ensures others { OnlyExchanger exchanger self.old self.new }
    {
        lay(&mut self.exchangers[exchanger as usize], duty)
    }

    /// The request that waits at an exchanger leaves it, if it arrived at this place, and its duty comes
    /// back.
    pub(crate) fn withdraw(&mut self, exchanger: u64, place: Place) -> Option<Duty>
        requires { FitsSide (Exchanges exchanger) }
        ensures left { LeftExchanger (exchanger_at self.old exchanger) (exchanger_at self.new exchanger) place
            result }
        ensures others { OnlyExchanger exchanger self.old self.new }
    {
        self.exchangers[exchanger as usize].withdraw(place)
    }
}
