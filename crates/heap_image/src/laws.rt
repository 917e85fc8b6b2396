ghost use Rattle.std.specs.Prelude.{◌≡◌, ◌⊎◌, ℕ, List, Result};
ghost use Rattle.heap_image.specs.Grammar.{IsImage};
ghost use Rattle.heap_image.specs.Laws.{HeapImagesAreLawful};
ghost use Rattle.heap_image.specs.Reading.{Answers, WantsMemory};
ghost use Rattle.heap_image.specs.Snapshot.{Snapshot};
ghost use Rattle.heap_image.specs.declared.refusal.ImageRefusal.{ImageRefusal};
ghost use Rattle.heap_image.specs.declared.version.Version.{Version};

use exact_heap::histories_stay_lawful;
use miniheap::{places_hold_the_slots, slots_are_counted, slots_have_their_places};

/// No bytes have two answers, but for want of memory. So each refusal comes exactly where its field is
/// the first that is wrong.
pub fn one_answer()
    ensures { (bytes : List ℕ) (a b : Result Snapshot ImageRefusal) → Answers bytes a → Answers bytes b → WantsMemory a ⊎ (WantsMemory b ⊎ (a ≡ b)) }
{
    patch_table::one_answer();
}

/// An image has at most one spelling in each version, and bytes are of at most one image and version.
pub fn one_spelling()
    ensures bytes { (version : Version) (bytes others : List ℕ) (s : Snapshot) → IsImage version bytes s → IsImage version others s → bytes ≡ others }
    ensures image { (version other : Version) (bytes : List ℕ) (s t : Snapshot) → IsImage version bytes s → IsImage other bytes t → (version ≡ other) × (s ≡ t) }
{
    patch_table::one_text_a_table();
    patch_table::one_answer();
}

/// The image of a heap as it stands keeps the rules of every image. The call does nothing: a caller has the
/// clause.
pub fn heap_images_are_lawful()
    ensures { HeapImagesAreLawful }
{
    histories_stay_lawful();
    places_hold_the_slots();
    slots_have_their_places();
    slots_are_counted();
}
