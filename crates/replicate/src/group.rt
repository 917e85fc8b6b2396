// A group of replicas.
ghost use Rattle.std.specs.Prelude.{◌≤◌, length};

use crate::answer::{GateAnswer, Patched, Retired};
use crate::lead::greatest_lead;
use crate::seat::Seat;
use crate::start::seats_of;
use crate::turn::{is_settled, turn_of};
use arrayvec::ArrayVec;
use ex_io::{Source, Tape};
use layout_run::RunRefusal;
use patch_table::Patches;
use rv_machine::{Settings, steps_are_shaped};
use std::alloc::{AllocError, Global};

/// Several runs of one program under different seeds, which vote on what is printed.
#[derive(Drop)]
pub struct Group {
    pub(crate) seats: Vec<Seat>,
    pub(crate) patches: Patches,
    pub(crate) gates: u64,
    pub(crate) retired: ArrayVec<Retired, 9>,
    pub(crate) patched: Vec<Patched>,
    // how it has ended, or that a vote was lost
    pub(crate) over: Option<GateAnswer>,
    // a call was refused, and so is each from then on
    pub(crate) refused: Option<RunRefusal>,
    pub(crate) lead: u64,
    ghost few: { length seats.items ≤ 9 },
}

impl Group {
    ghost use Rattle.std.specs.Prelude.{◌≡◌, ◌<◌, ◌≤◌, ℕ, List, Some, None, Ok, Err, length, map, max, string_bytes, IfOk, OnErr, OnOk};
    ghost use Rattle.infinite_heap.specs.Elf.{program_of};
    ghost use Rattle.infinite_heap.specs.Loaded.{Loaded};
    ghost use Rattle.infinite_heap.specs.Start.{IsWithin};
    ghost use Rattle.layout_run.specs.Advances.{CutsInput, TellsInput};
    ghost use Rattle.layout_run.specs.Runs.{RefusesInput};
    ghost use Rattle.layout_run.specs.Whole.{most_steps};
    ghost use Rattle.replicate.specs.Groups.{lead_of, turned};
    ghost use Rattle.replicate.specs.Groups as model;
    ghost use Rattle.replicate.specs.GroupStands.{IsGroup};
    ghost use Rattle.replicate.specs.Limits.{MeetsLimitAt};
    ghost use Rattle.replicate.specs.Rounds.{started};
    ghost use Rattle.replicate.specs.Runs.{StartsAnew};
    ghost use Rattle.replicate.specs.Standings.{AreKept, IsSameInput, is_settled_at, place_at};

    /// `replicas` runs of the program of an ELF file before their first step, each for at most `budget` steps and under a seed
    /// of its own: that of the settings, and those behind it. `file` is one that `load` accepts, the arguments are those that
    /// a guest may have, and `replicas` is 3 to 9.
    pub fn new(
        alloc: Global,
        file: &[u8],
        args: &[String],
        settings: Settings,
        budget: u64,
        replicas: u8,
    ) -> Result<Group, AllocError>
        requires loads { (program : Loaded) × (program_of file.now ≡ Ok program) }
        requires args { IsWithin (map string_bytes args.now) }
        requires budget { budget ≤ most_steps }
        requires least { 3 ≤ replicas }
        requires most { replicas ≤ 9 }
        ensures stands { IfOk result (λ group. (program : Loaded) → program_of file.now ≡ Ok program → IsGroup (started program (map string_bytes args.now) settings budget replicas) group) }
        ensures anew { IfOk result StartsAnew }
        ensures lead { IfOk result (λ group. group.lead ≡ 0) }
    {
        let seats = seats_of(alloc, file, args, &settings, budget, replicas)?;
        let retired = ArrayVec::new();
        let patched = Vec::new(alloc);
        Ok(Group {
            seats,
            patches: settings.patches,
            gates: 0,
            retired,
            patched,
            over: None,
            refused: None,
            lead: 0,
        })
    }

    /// The greatest number of steps since an open gate by which a live replica was ahead of one that hadn't arrived, at the end
    /// of a turn. It is 0 for a new group, and takes no memory.
    pub fn lead(&self) -> u64
        ensures { result ≡ self.now.lead }
    {
        self.lead
    }

    /// The replicas that came to something else than the others, in the order in which they were retired.
    pub fn retired(&self) -> &[Retired]
        ensures { (g : model.Group) → IsGroup g self.now → result.now ≡ g.retired }
    {
        self.retired.as_slice()
    }

    /// The gates that changed the table, in their order.
    pub fn patched(&self) -> &[Patched]
        ensures { (g : model.Group) → IsGroup g self.now → result.now ≡ g.patched }
    {
        &self.patched
    }

    /// The table of the live replicas.
    pub fn patches(&self) -> &Patches
        ensures { (g : model.Group) → IsGroup g self.now → result.now ≡ g.table }
    {
        &self.patches
    }

    /// The open gates so far.
    pub fn gates(&self) -> u64
        ensures { (g : model.Group) → IsGroup g self.now → result ≡ g.gates }
    {
        self.gates
    }

    /// Replica `i` goes on until it has arrived or has taken `n` steps, and it is said whether it has arrived or is
    /// retired. A write, a fault or want of room that only the step after these would come to isn't an arrival yet.
    ///
    /// While no call of the group was refused, the tape has to keep, with none of its reads refused, and to have answered
    /// up to each replica's place.
    pub fn turn<S: Source>(
        &mut self,
        alloc: Global,
        tape: &mut Tape,
        input: &mut S,
        i: u8,
        n: u64,
    ) -> Result<bool, RunRefusal>
        requires index { i < length self.old.seats.items }
        requires kept { self.old.refused ≡ None → AreKept tape.old self.old.seats.items }
        ensures turned { (g : model.Group) (bytes : List ℕ) → TellsInput bytes tape.old (S.left input.old) → IsGroup g self.old → IfOk result (λ there. IsGroup (turned bytes i n g) self.new × (there ≡ is_settled_at g.budget i (turned bytes i n g).replicas)) }
        ensures kept { OnOk result (AreKept tape.new self.new.seats.items) }
        ensures high { self.old.over ≡ None → OnOk result (tape.new.high ≡ max tape.old.high (place_at i self.new.seats.items)) }
        ensures same { OnOk result (IsSameInput tape.old tape.new (S.left input.old) (S.left input.new)) }
        ensures lead { (g : model.Group) (bytes : List ℕ) → TellsInput bytes tape.old (S.left input.old) → IsGroup g self.old → OnOk result (self.new.lead ≡ max self.old.lead (lead_of g.budget (turned bytes i n g).replicas)) }
        ensures count { length self.new.seats.items ≡ length self.old.seats.items }
        ensures limit { self.old.refused ≡ None → RefusesInput result tape.old ((g : model.Group) (bytes : List ℕ) → TellsInput bytes tape.old (S.left input.old) → IsGroup g self.old → MeetsLimitAt bytes g.budget n i g.replicas) }
        ensures spent { (refused : RunRefusal) → self.old.refused ≡ Some refused → result ≡ Err refused }
        ensures refuses { (refused : RunRefusal) → result ≡ Err refused → self.new.refused ≡ Some refused }
        ensures going { OnOk result (self.new.refused ≡ None) }
        ensures failed { OnErr result (self.new.lead ≡ self.old.lead) }
        ensures cause { self.old.refused ≡ None → CutsInput result (S.faults input.old) (S.faults input.new) }
    {
        steps_are_shaped();
        if let Some(refused) = self.refused {
            return Err(refused);
        }
        if self.over.is_some() {
            let lead = greatest_lead(&self.seats, self.lead);
            self.lead = lead;
            return Ok(is_settled(&self.seats, i as usize));
        }
        match turn_of(alloc, &mut self.seats, i as usize, n, tape, input) {
            Ok(there) => {
                let raised = greatest_lead(&self.seats, self.lead);
                self.lead = raised;
                Ok(there)
            }
            Err(refused) => {
                self.refused = Some(refused);
                Err(refused)
            }
        }
    }
}
