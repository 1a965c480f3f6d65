//! The audit of an account: whether it is legal, or its first fault.
ghost use Rattle.std.specs.Prelude.{◌≡◌, ◌↔◌, IfOk};
ghost use Rattle.rv_account.specs.rules.Legal.{Legal};
ghost use Rattle.rv_audit.specs.Faults.{IsToldOf};
ghost use Rattle.rv_audit.specs.Words.{IsFront};
ghost use Rattle.rv_audit.specs.declared.outcome.Audit.TheVariants as tells;

use crate::front::Front;
use crate::outcome::Audit;
use crate::rules::first_broken;
use rv_account::Account;
use rv_text::NoMemory;
use std::alloc::Global;

// Audits the entries that the front has not passed yet.
fn audit_rest(front: &mut Front<'_>, account: &Account) -> Result<Audit, NoMemory>
    requires front { IsFront front.old }
    requires same { front.old.account.now ≡ account.now }
    ensures { IfOk result (IsToldOf account.now.account) }
{
    while let Some(entry) = account.entry(front.len()) {
        match first_broken(front, entry) {
            Some(rule) => {
                let place = front.len();
                return Ok(Audit::Fault { place, rule });
            }
            None => front.pass(entry)?,
        }
    }
    Ok(Audit::Legal)
}

/// Audits any account. The result is that the account is legal, or else the first place at which a rule is
/// broken, with the first rule that is broken there, in the order of the rules. Fails only if memory was
/// refused. The account stays as it is.
///
/// An entry takes time logarithmic in the number of entries before it: for itself, for each of its partners,
/// and for each request whose wait it ends. To see whether an open arrival is left that isn't among its
/// partners, two rising lists are merged, once for P3 and once for P4. By then P1 and P2 hold, so the
/// partners rise and are all on one side.
pub fn audit(alloc: Global, account: &Account) -> Result<Audit, NoMemory>
    ensures told { IfOk result (IsToldOf account.now.account) }
    ensures legal { IfOk result (λ told. (told ≡ tells.Legal) ↔ Legal account.now.account) }
{
    let mut front = Front::empty(alloc, account);
    audit_rest(&mut front, account)
}
