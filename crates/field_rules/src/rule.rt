ghost use Rattle.std.specs.Prelude.{◌≡◌};
ghost use Rattle.field_rules.specs.Rules.{rule};

use field_table::Field;

/// A zoom whose writes by others than the owner a function of the caller judges.
#[derive(Clone, Copy, Debug, PartialEq, Eq)]
pub enum Zoom {
    /// That of the whole page, row 0.
    Full,
    /// That of its text alone, row 1.
    Text,
}

/// Who may write a field. What a rule denies it denies by facts that don't change; what it neither denies
/// nor allows is reverted.
#[derive(Clone, Copy, Debug, PartialEq, Eq)]
pub enum Rule {
    /// All may.
    Any,
    /// The parent may, and a process is denied.
    ParentOnly,
    /// All may on a top-level context, and are denied on a frame.
    TopOnly,
    /// The parent may, and a process that owns the context.
    OwnerElseRevert,
    /// All may write 0, which is no window. A process that owns the context may write an open window that
    /// was made for it; another window is denied, and so is each to the parent.
    Window,
    /// A number from 30 to 500 on a top-level context, all else is denied. The parent may, a process that
    /// owns the context may, and another one where the zoom's function allows the number.
    Custom(Zoom),
}

impl Rule {
    /// The rule of a field.
    pub fn of(field: Field) -> Rule
        ensures { result ≡ rule field }
    {
        match field {
            Field::Name => Rule::OwnerElseRevert,
            Field::Closed => Rule::Any,
            Field::ExplicitActive => Rule::ParentOnly,
            Field::CurrentInnerWindowId => Rule::Window,
            Field::OpenerId => Rule::ParentOnly,
            Field::FullZoom => Rule::Custom(Zoom::Full),
            Field::TextZoom => Rule::Custom(Zoom::Text),
            Field::Muted => Rule::ParentOnly,
            Field::MessageManagerGroup => Rule::ParentOnly,
            Field::UserAgentOverride => Rule::TopOnly,
            Field::AllowContentRetargeting => Rule::OwnerElseRevert,
            Field::SandboxFlags => Rule::OwnerElseRevert,
            Field::IsInBFCache => Rule::ParentOnly,
            Field::Loading => Rule::OwnerElseRevert,
            Field::DefaultLoadFlags => Rule::OwnerElseRevert,
            Field::DisplayMode => Rule::TopOnly,
        }
    }
}
