//! The journal of an account, as an engine writes to it.
ghost use Rattle.std.specs.Prelude.{◌≡◌, None, false};
ghost use Rattle.rv_journal.specs.System.{does_sync};
ghost use Rattle.rv_store.specs.Lasting.{fault_of, journal_of};

use rv_frame::{Lasting, WriteFault};
use rv_journal::{Device, DiskJournal, JournalFault, SystemFile};

// What is told of a piece that wasn't taken.
const NONE_SENT: WriteFault = WriteFault { sent: 0 };

/// The journal of an account: an engine's lines go there. Once it didn't take some, it takes nothing more.
#[derive(Drop)]
pub struct AccountJournal<D: Device> {
    journal: DiskJournal<D>,
    fault: Option<JournalFault>,
}

impl<D: Device> AccountJournal<D> {
    /// A journal that has taken all so far.
    pub(crate) fn new(journal: DiskJournal<D>) -> AccountJournal<D>
        ensures journal { journal_of result ≡ journal }
        ensures fault { fault_of result ≡ None }
    {
        AccountJournal {
            journal,
            fault: None,
        }
    }

    /// Why it took nothing at the last call, and takes nothing more.
    pub fn fault(&self) -> Option<JournalFault>
        ensures { result ≡ fault_of self.now }
    {
        self.fault
    }

    /// How many bytes its text has.
    pub fn length(&self) -> usize
        ensures { result ≡ (journal_of self.now).end }
    {
        self.journal.length()
    }

    /// Its device, to be looked at.
    pub fn device(&self) -> &D
        ensures { result.now ≡ (journal_of self.now).device }
    {
        self.journal.device()
    }

    /// Its device, as the last call left it.
    pub fn into_device(self) -> D
        ensures { result ≡ (journal_of self).device }
    {
        let AccountJournal { journal, fault: _ } = self;
        journal.into_device()
    }
}

impl AccountJournal<SystemFile> {
    /// What it takes from now on is with the system, and not stored: it outlives the process, and a machine
    /// that dies may lose it.
    pub fn stop_syncing(&mut self)
        ensures stopped { does_sync (journal_of self.new).device ≡ false }
        ensures fault { fault_of self.new ≡ fault_of self.old }
    {
        self.journal.stop_syncing();
    }
}

/// What it took is stored: a crash leaves it.
impl<D: Device> Lasting for AccountJournal<D> {
    ghost use Rattle.rv_store.specs.Lasting.{journal_lasts};

    ghost lasts = { journal_lasts D.disk };

    fn store(&mut self, bytes: &[u8]) -> Result<(), WriteFault> {
        if self.fault.is_some() {
            return Err(NONE_SENT);
        }
        match self.journal.append(bytes) {
            Ok(()) => Ok(()),
            Err(fault) => {
                self.fault = Some(fault);
                Err(NONE_SENT)
            }
        }
    }
}
