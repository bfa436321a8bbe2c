use cov_types::ByteText;
use vlog_tree::{Instance, NamePlace, ParamName, RegName, WireName};

/// A part of a declaration that declares one name.
pub(crate) trait HasName {
    ghost use Rattle.std.specs.Prelude.{◌≡◌, List, ℕ};

    ghost named: { Self → List ℕ };

    fn name(&self) -> &ByteText
        ensures { result.now ≡ named self.now };
}

impl HasName for NamePlace {
    ghost named = { λ n. n.name };

    fn name(&self) -> &ByteText {
        &self.name
    }
}

impl HasName for WireName {
    ghost named = { λ w. w.name.name };

    fn name(&self) -> &ByteText {
        &self.name.name
    }
}

impl HasName for RegName {
    ghost named = { λ r. r.name.name };

    fn name(&self) -> &ByteText {
        &self.name.name
    }
}

impl HasName for ParamName {
    ghost named = { λ p. p.name.name };

    fn name(&self) -> &ByteText {
        &self.name.name
    }
}

impl HasName for Instance {
    ghost named = { λ m. m.name.name };

    fn name(&self) -> &ByteText {
        &self.name.name
    }
}
