// Laws of what images show. Each is a function that does nothing and whose contract is the law.
ghost use Rattle.overflow_isolator.specs.Laws.{FoundIsInReach, ImagesAddNoOverflow, ImagesAddNoUnderflow, ImagesHaveOneList};

use culprits::objects_that_rise_are_one_list;

/// What is an overflow or an underflow in some images is one in any of these alone: a further image
/// adds none, and their order doesn't matter.
pub fn images_add_nothing()
    ensures overflow { ImagesAddNoOverflow }
    ensures underflow { ImagesAddNoUnderflow }
{}

/// Images have one list of overflows and one of underflows.
pub fn images_have_one_list()
    ensures { ImagesHaveOneList }
{
    objects_that_rise_are_one_list();
}

/// What is found lies no farther from its object than a pad or a front reaches.
pub fn found_is_in_reach()
    ensures { FoundIsInReach }
{}
