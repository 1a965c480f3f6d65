//! The members of a flat object, one after another, with no memory of their own.
ghost use Rattle.std.specs.Prelude.{◌≡◌, option_map};
ghost use Rattle.serde_json.specs.Find.{get_member};
ghost use Rattle.rv_json.specs.Flat.{plain_data, flat_members};

/// A value that is a whole number, a text or a list of texts.
#[derive(Clone, Copy, Drop)]
pub enum Plain<'a> {
    /// A whole number, 0 to 2^64 - 1.
    Whole(u64),
    /// A text.
    Text(&'a str),
    /// The texts that `serde_json` reads from a list's own text; none if that is not a list of at most 16
    /// texts.
    Texts(&'a str),
}

/// A member of a flat object.
#[derive(Clone, Copy, Drop)]
pub struct FlatMember<'a> {
    /// Its name.
    pub name: &'a str,
    /// Its value.
    pub value: Plain<'a>,
}

impl FlatMember<'_> {
    /// The member that stands in a place before one is read into it.
    pub const NONE: FlatMember<'static> = FlatMember {
        name: "",
        value: Plain::Whole(0),
    };
}

/// The value at the name. If the name occurs twice, the last value counts.
pub fn find<'a>(fields: &[FlatMember<'a>], name: &str) -> Option<Plain<'a>>
    ensures { option_map plain_data result ≡ get_member name.now (flat_members fields.now) }
{
    let mut left = fields.len();
    'places: while left > 0 {
        left -= 1;
        let member = &fields[left];
        if member.name == name {
            return Some(member.value);
        }
    }
    None
}
