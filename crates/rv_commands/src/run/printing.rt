//! Tells the reply of a command: in its record, and on standard output.
use crate::reply::{ReplyForm, reply_text, status_of};
use crate::run::end::ShellEnd;
use crate::run::record::Record;
use rv_frame::Sink;
use rv_text::{Call, Key, Reply};
use rv_words::shell::ShellCall;

/// A call, and the reply of its request.
#[derive(Drop)]
pub(crate) struct SettledCall {
    pub(crate) call: Call,
    pub(crate) key: Key,
    pub(crate) reply: Reply,
}

/// Tells replies as a command's words say.
#[derive(Drop)]
pub(crate) struct Teller<'a> {
    rt: &'a HostRuntime,
    form: ReplyForm,
    record: Record<'a>,
}

impl<'a> Teller<'a> {
    /// Prints replies in the form that is asked for, and keeps them in the record of this path, if there is
    /// one.
    pub(crate) fn open(
        rt: &'a HostRuntime,
        asked: &ShellCall,
        record: Option<&'a str>,
    ) -> Result<Teller<'a>, ShellEnd> {
        Ok(Teller {
            rt,
            form: form_of(asked),
            record: Record::open(rt, record)?,
        })
    }

    /// Records a reply that isn't printed.
    pub(crate) fn record(&mut self, settled: &SettledCall) -> Result<(), ShellEnd> {
        self.record.append(self.rt.alloc(), settled)
    }

    /// Records a reply, prints it in one write, and gives its status. It is printed too where the record
    /// doesn't take it.
    pub(crate) fn tell(&mut self, settled: &SettledCall) -> Result<u8, ShellEnd> {
        let recorded = self.record(settled);
        let text = reply_text(self.rt.alloc(), self.form, &settled.key, &settled.reply)?;
        let mut out = Sink::new(self.rt.stdout());
        if out.write_all(text.as_bytes()).is_err() {
            return Err(ShellEnd::Unprinted);
        }
        recorded?;
        Ok(status_of(&settled.reply))
    }
}

// How the replies are printed.
fn form_of(asked: &ShellCall) -> ReplyForm {
    if asked.json {
        ReplyForm::Json
    } else if asked.null {
        ReplyForm::Zeros
    } else {
        ReplyForm::Lines
    }
}
