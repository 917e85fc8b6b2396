// Laws of what was found. Each is a function that does nothing and whose contract is the law.
ghost use Rattle.culprits.specs.Laws.{JoinsOne, RisingIsOne};
ghost use Rattle.culprits.specs.declared.found.Dangling.{Dangling};
ghost use Rattle.culprits.specs.declared.found.Overflow.{Overflow};
ghost use Rattle.culprits.specs.declared.found.Underflow.{Underflow};

/// Objects that rise by their numbers are one list.
pub fn objects_that_rise_are_one_list()
    ensures overflows { RisingIsOne (λ (f : Overflow). f.object) }
    ensures underflows { RisingIsOne (λ (f : Underflow). f.object) }
    ensures danglings { RisingIsOne (λ (d : Dangling). d.object) }
{}

/// They call for one table.
pub fn objects_call_for_one_table()
    ensures { JoinsOne }
{}
