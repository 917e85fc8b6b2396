// Laws of isolation. Each is a function that runs nothing and whose contract is the law.
ghost use Rattle.iterate.specs.Isolated.{IsolatesOne};

/// Images call for one table. The call does nothing: a caller has the clause.
pub fn images_isolate_one_table()
    ensures { IsolatesOne }
{
    overflow_isolator::images_have_one_list();
    dangling_isolator::images_have_one_list();
    culprits::objects_call_for_one_table();
}
