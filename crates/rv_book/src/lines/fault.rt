//! Why a line or an account is not read.
ghost use Rattle.std.specs.Prelude.{◌≡◌};
ghost use Rattle.rv_book.specs.declared.lines.fault.AccountFault.TheVariants.{NoMemory};

use rv_text::TextFault;
use std::alloc::AllocError;

/// Why a line says nothing.
#[derive(Clone, Copy)]
pub enum LineFault {
    /// The line has another form.
    Bad,
    /// Memory was refused, for a line that may say something.
    NoMemory,
}

impl From<AllocError> for LineFault {
    ghost use Rattle.rv_book.specs.declared.lines.fault.LineFault.TheVariants as line;

    ghost from_gives = { λ _ fault. fault ≡ line.NoMemory };

    fn from(_error: AllocError) -> LineFault {
        LineFault::NoMemory
    }
}

impl From<TextFault> for LineFault {
    ghost use Rattle.rv_book.specs.lines.Faults.{line_fault};

    ghost from_gives = { λ text fault. fault ≡ line_fault text };

    fn from(fault: TextFault) -> LineFault {
        match fault {
            TextFault::NotJson => LineFault::Bad,
            TextFault::NotMessage => LineFault::Bad,
            TextFault::NoMemory => LineFault::NoMemory,
        }
    }
}

/// Why lines are not read as an account.
#[derive(Clone, Copy)]
pub enum AccountFault {
    /// The first line that has another form, counted from 1. With no lines that is line 1, and with more
    /// than 100,000 lines of entries it is the one past them at the latest.
    BadLine(usize),
    /// Memory was refused before a bad line was met.
    NoMemory,
}

impl From<AllocError> for AccountFault {
    ghost from_gives = { λ _ fault. fault ≡ NoMemory };

    fn from(_error: AllocError) -> AccountFault {
        AccountFault::NoMemory
    }
}
