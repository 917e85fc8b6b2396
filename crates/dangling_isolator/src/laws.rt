ghost use Rattle.dangling_isolator.specs.Laws.{ImagesAddNoMark, ImagesHaveOneList, MarksAreOfAgreedObjects};

use culprits::objects_that_rise_are_one_list;

/// Images share a broken byte of a released object's slot exactly where they agree on the object and each
/// has the byte at the object's row. The call does nothing: a caller has the clause.
pub fn marks_are_of_agreed_objects()
    ensures { MarksAreOfAgreedObjects }
{}

/// A further image adds no such byte.
pub fn images_add_no_mark()
    ensures { ImagesAddNoMark }
{}

/// Images have one list of dangling objects.
pub fn images_have_one_list()
    ensures { ImagesHaveOneList }
{
    objects_that_rise_are_one_list();
}
