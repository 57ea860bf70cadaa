//! What no session shows of handles and processes, worked out by hand: in which order a process leaves its handles, and one that has none; statuses, and
//! a rack of fewer than four places. There is nothing to run.
ghost use Rattle.std.specs.Prelude.{◌≡◌, ◌∷◌, [], Some, None, Ok, Err};
ghost use Rattle.con_units.specs.declared.view.BufferId.{BufferId};
ghost use Rattle.con_units.specs.declared.code.Code.TheVariants.{BadHandle, BadArgument};
ghost use Rattle.con_handles.specs.Handles.{look};
ghost use Rattle.con_handles.specs.declared.handle.Object.TheVariants as objects;
ghost use Rattle.con_handles.specs.declared.handle.Kind.TheVariants as kinds;
ghost use Rattle.con_procs.specs.Procs.{signalled, exited, first_pending, add_answer, handler_added};
ghost use Rattle.con_procs.specs.Words.Procs.{status_of};
ghost use Rattle.tests_input.specs.Rows.{two_have, takes, after_takes, process};

/// A process that exits leaves its handles from the least number on; then it has none, and those of another one are as they were.
pub fn handles_are_taken_from_the_least_on()
    ensures taken { (main : BufferId) → takes 4 (two_have main 1 255) 255
        ≡ Some objects.Input ∷ Some (objects.Output main) ∷ Some (objects.Output main) ∷ None ∷ [] }
    ensures none { (main : BufferId) → look (after_takes 4 (two_have main 1 255) 255).open_ones 255 1 kinds.Any 0 ≡ Err BadHandle }
    ensures other { (main : BufferId) → look (after_takes 4 (two_have main 1 255) 255).open_ones 1 1 kinds.Input 3 ≡ Ok objects.Input }
{}

/// One that exits keeps its status, and an event that all are told is pending for the other one alone.
pub fn one_that_exits_keeps_its_status()
    ensures lives { status_of (signalled (exited (process 7 0 ∷ process 9 0 ∷ []) 2 5) 2 0) 1 ≡ None }
    ensures ended { status_of (signalled (exited (process 7 0 ∷ process 9 0 ∷ []) 2 5) 2 0) 2 ≡ Some 5 }
    ensures told { first_pending (signalled (exited (process 7 0 ∷ process 9 0 ∷ []) 2 5) 2 0) 1 ≡ Some 2 }
    ensures not_told { first_pending (signalled (exited (process 7 0 ∷ process 9 0 ∷ []) 2 5) 2 0) 2 ≡ None }
{}

/// Of a rack of two the place 2 is refused, and then the place 1 is added.
pub fn places_are_those_of_the_rack()
    ensures refused { add_answer (process 7 2 ∷ []) 1 2 ≡ Err BadArgument }
    ensures added { add_answer (handler_added (process 7 2 ∷ []) 1 2) 1 1 ≡ Ok tt }
{}
