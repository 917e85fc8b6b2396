ghost use Rattle.std.specs.Prelude.{◌≡◌, ◌⊎◌, ◌↔◌, max, ℕ, List, Result};
ghost use Rattle.patch_table.specs.Table.{Table, join, only_pad, only_front, only_defer, raised, IsJoin, IsBelow, value_at};
ghost use Rattle.patch_table.specs.Limits.{InLimits};
ghost use Rattle.patch_table.specs.Grammar.{Answers, IsText, IsAnswered, WantsMemory};
ghost use Rattle.patch_table.specs.Spelling.{spelling, IsSpelled};
ghost use Rattle.patch_table.specs.declared.line.Version.{Version};
ghost use Rattle.patch_table.specs.declared.reading.PatchRefusal.{PatchRefusal};

/// "Below" is an order on tables. Tables within the limits that are below each other are the same.
pub fn below_is_an_order()
    ensures reflexive { (a : Table) → IsBelow a a }
    ensures transitive { (a b c : Table) → IsBelow a b → IsBelow b c → IsBelow a c }
    ensures antisymmetric { (a b : Table) → InLimits a → InLimits b → IsBelow a b → IsBelow b a → a ≡ b }
{}

/// The join has the greater entry at each key, and is the one table that does.
pub fn join_is_the_greater_entry()
    ensures is_join { (a b : Table) → IsJoin a b (join a b) }
    ensures only { (a b c : Table) → IsJoin a b c → c ≡ join a b }
    ensures pads { (a b : Table) (site : ℕ) → value_at (join a b).pads site ≡ max (value_at a.pads site) (value_at b.pads site) }
    ensures fronts { (a b : Table) (site : ℕ) → value_at (join a b).fronts site ≡ max (value_at a.fronts site) (value_at b.fronts site) }
    ensures defers { (a b : Table) (sites : ℕ × ℕ) → value_at (join a b).defers sites ≡ max (value_at a.defers sites) (value_at b.defers sites) }
{}

/// The join is commutative, associative and idempotent, and the least table that neither is above.
pub fn join_is_the_least_above()
    ensures commutes { (a b : Table) → join a b ≡ join b a }
    ensures associates { (a b c : Table) → join (join a b) c ≡ join a (join b c) }
    ensures idempotent { (a : Table) → join a a ≡ a }
    ensures above { (a b : Table) → IsBelow a (join a b) × IsBelow b (join a b) }
    ensures least { (a b c : Table) → IsBelow a c → IsBelow b c → IsBelow (join a b) c }
{}

/// To raise an entry is to join with the table that has it alone.
pub fn raise_is_a_join()
    ensures pad { (a : Table) (site n : ℕ) → record a { pads = raised a.pads site n } ≡ join a (only_pad site n) }
    ensures front { (a : Table) (site n : ℕ) → record a { fronts = raised a.fronts site n } ≡ join a (only_front site n) }
    ensures defer { (a : Table) (sites : ℕ × ℕ) (n : ℕ) → record a { defers = raised a.defers sites n } ≡ join a (only_defer sites n) }
{}

/// A table within the limits has one text in version 2, its spelling, and one in version 1 where it
/// has no front. No other table has a text, and no text is of both versions.
pub fn one_text_a_table()
    ensures spelled { (version : Version) (text : List ℕ) (table : Table) → IsText version text table ↔ (IsSpelled version table × InLimits table × (text ≡ spelling version table)) }
    ensures one_version { (version other : Version) (text : List ℕ) (a b : Table) → IsText version text a → IsText other text b → version ≡ other }
{}

/// No text has two answers, but for want of memory. So what `write` gives is read as its table, and each
/// refusal comes exactly where its rule is the first that is broken.
pub fn one_answer()
    ensures { (text : List ℕ) (a b : Result Table PatchRefusal) → Answers text a → Answers text b → WantsMemory a ⊎ (WantsMemory b ⊎ (a ≡ b)) }
{}

/// Each list of bytes is the text of a table or has a refusal. By `one_answer` it has no second one.
pub fn every_text_is_answered()
    ensures { (text : List ℕ) → IsAnswered text }
{}
