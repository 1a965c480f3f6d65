//! Writes the text of a JSON object, one member after another.
ghost use Rattle.std.specs.Prelude.{◌≡◌, [], ◌∷◌, ◌++◌, map, OnOk, IfOk, string_bytes};
ghost use Rattle.json.specs.Token as token;
ghost use Rattle.serde_json.specs.Data.{no_members, string, number, unsigned, array};
ghost use Rattle.serde_json.specs.View.{items_of};

use crate::fault::NoMemory;
use crate::items::Items;
use json::Writer;
use std::alloc::Global;

// The room that a text begins with. Most need no more.
const ROOM: usize = 256;

/// The text of a JSON object, to which members are written one by one, with no white space. They stand in
/// the order in which they are written: the caller keeps that of `serde_json`, the byte order of the names.
/// After a fault the text is of no further use.
#[derive(Drop)]
pub struct ObjectText {
    writer: Writer,
    ghost alone: { writer.before ≡ [] },
}

impl ObjectText {
    ghost use Rattle.rv_json.specs.Writing.{IsBlank, Writes, text_with};

    /// The text of an object with no member so far. Fails only if memory was refused.
    pub fn new(alloc: Global) -> Result<ObjectText, NoMemory>
        ensures { IfOk result IsBlank }
    {
        ObjectText::in_room(Vec::with_capacity(alloc, ROOM)?)
    }

    /// The same, in the memory of a buffer, whose bytes are dropped.
    pub fn in_room(mut buffer: Vec<u8>) -> Result<ObjectText, NoMemory>
        ensures { IfOk result IsBlank }
    {
        buffer.clear();
        let mut writer = Writer::new(buffer);
        writer.begin_object()?;
        Ok(ObjectText { writer })
    }

    /// Writes a whole number. Fails only if memory was refused.
    #[tactic(auto, unfolding(crate::specs::Writing::text_with))]
    pub fn put_whole(&mut self, name: &str, value: u64) -> Result<(), NoMemory>
        ensures { OnOk result (Writes ((name.now, number (unsigned value)) ∷ []) self.old self.new) }
    {
        self.writer.key(name)?;
        self.writer.u64(value)
    }

    /// Writes a text. Fails only if memory was refused.
    #[tactic(auto, unfolding(crate::specs::Writing::text_with))]
    pub fn put_text(&mut self, name: &str, value: &str) -> Result<(), NoMemory>
        ensures { OnOk result (Writes ((name.now, string value.now) ∷ []) self.old self.new) }
    {
        self.writer.key(name)?;
        self.writer.string(value)
    }

    /// Writes the list of the items' texts. Fails only if memory was refused.
    pub fn put_texts(&mut self, name: &str, items: &Items) -> Result<(), NoMemory>
        ensures { OnOk result (Writes ((name.now, array (items_of (map string items.now))) ∷ [])
            self.old self.new) }
    {
        self.writer.key(name)?;
        self.writer.begin_array()?;
        put_each_text(&mut self.writer, items)?;
        self.writer.end_array()
    }

    /// The text of the object, with all its members. Fails only if memory was refused.
    #[tactic(auto, unfolding(crate::specs::Writing::text_with))]
    pub fn finish(self) -> Result<String, NoMemory>
        ensures { IfOk result (λ s. string_bytes s ≡ text_with no_members self) }
    {
        let ObjectText { mut writer } = self;
        writer.end_object()?;
        Ok(String::from_utf8(writer.into_inner()).unwrap())
    }
}

// Writes the items' texts, in their order.
fn put_each_text(writer: &mut Writer, items: &Items) -> Result<(), NoMemory>
    ensures tokens { OnOk result (writer.new.tokens
        ≡ writer.old.tokens ++ map (λ text. token.string text) items.now) }
    ensures before { writer.new.before ≡ writer.old.before }
{
    for item in items.as_slice() {
        writer.string(item.as_str())?;
    }
    Ok(())
}
