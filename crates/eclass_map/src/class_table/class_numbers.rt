// Which numbers of classes are given.
ghost use Rattle.std.specs.Prelude.{ℕ, ◌≡◌, ◌<◌, Some, length};
ghost use Rattle.eclass_map.specs.ClassTable.{class_in};
ghost use Rattle.cs_base.specs.declared.positions.Part.{Part};

use super::Classes;

impl Classes {
    /// How many class numbers were given: those from 0 to before this one. Some of them may have no parts.
    pub fn class_numbers(&self) -> u32
        ensures answer { result ≡ length self.now.labels.walks }
        ensures bound { (part : Part) (c : ℕ) → class_in self.now part ≡ Some c → c < result }
    {
        self.labels.classes()
    }
}
