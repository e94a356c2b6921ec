ghost use Rattle.std.specs.Prelude.{◌≡◌};
ghost use Rattle.field_table.specs.Field.{number, name, kind, field_of_name, initial};

use crate::kind::Kind;
use crate::value::Value;

/// A synced field of a browsing context, in the order of the fields' numbers.
#[derive(Clone, Copy, Debug, PartialEq, Eq)]
pub enum Field {
    /// The name by which links and scripts reach the context.
    Name,
    /// Whether the context was closed by a script.
    Closed,
    /// What the embedder says of whether the page is active, a number from 0 to 2.
    ExplicitActive,
    /// The window global that the context shows.
    CurrentInnerWindowId,
    /// The context whose script opened this one.
    OpenerId,
    /// The zoom of the whole page, in percent.
    FullZoom,
    /// The zoom of its text alone, in percent.
    TextZoom,
    /// Whether the page is muted.
    Muted,
    /// The group of message managers that the tab belongs to.
    MessageManagerGroup,
    /// What servers are told in place of the browser's user agent, empty for nothing else.
    UserAgentOverride,
    /// Whether the content may be retargeted.
    AllowContentRetargeting,
    /// What the page's sandbox forbids, a bit for each restriction.
    SandboxFlags,
    /// Whether the page is in the back-forward cache.
    IsInBFCache,
    /// Whether the page is being loaded.
    Loading,
    /// The flags that each load in the context begins with, as bits.
    DefaultLoadFlags,
    /// How an app's page is shown, a number from 0 to 3.
    DisplayMode,
}

// The greatest number of 32 bits.
const MAX: u64 = 4_294_967_295;

const OFF: Kind = Kind::Flag { initial: false };

const ON: Kind = Kind::Flag { initial: true };

const BITS: Kind = Kind::Number {
    max: MAX,
    initial: 0,
};

const PERCENT: Kind = Kind::Number {
    max: MAX,
    initial: 100,
};

impl Field {
    /// Every field, by number.
    pub const ALL: [Field; 16] = [
        Field::Name,
        Field::Closed,
        Field::ExplicitActive,
        Field::CurrentInnerWindowId,
        Field::OpenerId,
        Field::FullZoom,
        Field::TextZoom,
        Field::Muted,
        Field::MessageManagerGroup,
        Field::UserAgentOverride,
        Field::AllowContentRetargeting,
        Field::SandboxFlags,
        Field::IsInBFCache,
        Field::Loading,
        Field::DefaultLoadFlags,
        Field::DisplayMode,
    ];

    /// The field's place in a table of fields, from 0 on.
    pub fn number(self) -> usize
        ensures { result ≡ number self }
    {
        self as usize
    }

    // The table of fields: each field's name, and what it may hold.
    #[tactic(auto, unfolding(crate::specs::Field::row))]
    fn row(self) -> (&'static str, Kind)
        ensures name { result.0.now ≡ name self }
        ensures kind { result.1 ≡ kind self }
    {
        match self {
            Field::Name => ("Name", Kind::Words),
            Field::Closed => ("Closed", OFF),
            Field::ExplicitActive => ("ExplicitActive", Kind::Number { max: 2, initial: 2 }),
            Field::CurrentInnerWindowId => ("CurrentInnerWindowId", Kind::Window),
            Field::OpenerId => ("OpenerId", Kind::Context),
            Field::FullZoom => ("FullZoom", PERCENT),
            Field::TextZoom => ("TextZoom", PERCENT),
            Field::Muted => ("Muted", OFF),
            Field::MessageManagerGroup => ("MessageManagerGroup", Kind::Words),
            Field::UserAgentOverride => ("UserAgentOverride", Kind::Words),
            Field::AllowContentRetargeting => ("AllowContentRetargeting", ON),
            Field::SandboxFlags => ("SandboxFlags", BITS),
            Field::IsInBFCache => ("IsInBFCache", OFF),
            Field::Loading => ("Loading", OFF),
            Field::DefaultLoadFlags => ("DefaultLoadFlags", BITS),
            Field::DisplayMode => ("DisplayMode", Kind::Number { max: 3, initial: 0 }),
        }
    }

    /// The field's name.
    pub fn name(self) -> &'static str
        ensures { result.now ≡ name self }
    {
        self.row().0
    }

    /// What the field may hold.
    pub fn kind(self) -> Kind
        ensures { result ≡ kind self }
    {
        self.row().1
    }

    /// The field of a name. Capitals count.
    pub fn named(text: &str) -> Option<Field>
        ensures { result ≡ field_of_name text.now }
    {
        Field::ALL.iter().copied().find(|f| f.name() == text)
    }

    /// What the field holds in a new context.
    pub fn initial(self) -> Value
        ensures { result ≡ initial self }
    {
        self.kind().initial_value()
    }
}
