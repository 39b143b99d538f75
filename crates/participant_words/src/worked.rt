//! Courses of one participant, computed. Numbers are in units: 1000000 is one.
ghost use Rattle.std.specs.Prelude.{◌≡◌, ◌^◌, ◌++◌, [], ◌∷◌, pos, true, false, Some, None};
ghost use Rattle.cpl_plan.specs.declared.words.Fault.TheVariants.{WriteMap};
ghost use Rattle.core_sides.specs.declared.event.Event.TheVariants.{Post, Judge, Take, Stop};
ghost use Rattle.core_sides.specs.declared.event.StopCause.TheVariants.{Fault as ByFault, NoMemory as ByNoMemory};
ghost use Rattle.core_sides.specs.declared.event.Reply.TheVariants.{Cut, Over};
ghost use Rattle.participant_words.specs.Deeds.{advances, finalizes, hands_out, puts_back};
ghost use Rattle.participant_words.specs.Questions.{most_step, reads_checkpoint, rows_read, source_of, writes_checkpoint};
ghost use Rattle.participant_words.specs.Refusals.{refusal_of_begin_advance, refusal_of_read_data, refusal_of_set_vertex, refusal_of_write_data};
ghost use Rattle.participant_words.specs.Replies.{ending_of};
ghost use Rattle.participant_words.specs.WorkedCourses.{again, asked, at_origin, converged, cut_off, done, greatest_twice, initialized, of_a, of_summing, one, repeating, stepped, stopped, summing, two_steps};
ghost use Rattle.participant_words.specs.declared.phase.EventKind.TheVariants.{Judge as JudgeKind, Stop as StopKind};
ghost use Rattle.cpl_plan.specs.ExamplePlan.{entry};

use crate::api_err::ApiErr;
use crate::phase::Phase;

/// A step waits for the question on checkpoints, and is then refused where it has no ticks, or more than
/// are left of the window.
pub fn the_calls_of_a_participant()
    ensures owed { refusal_of_begin_advance repeating 0 (of_a initialized) 10 ≡ Some ApiErr.CheckpointOwed }
    ensures no_ticks { refusal_of_begin_advance repeating 0 (of_a asked) 0 ≡ Some ApiErr.ZeroStep }
    ensures too_long { refusal_of_begin_advance repeating 0 (of_a asked) 11 ≡ Some (ApiErr.StepTooLong 10) }
    ensures too_late { refusal_of_read_data repeating 0 (of_a asked) (77 ∷ 65 ∷ []) (86 ∷ []) (0 ∷ []) 11 1
        ≡ Some (ApiErr.BadReadTime 10) }
    ensures too_late_to_set { refusal_of_set_vertex repeating 0 (of_a asked) (77 ∷ 65 ∷ []) at_origin
        ≡ Some (ApiErr.WrongPhase 0 2) }
    ensures not_read { refusal_of_read_data repeating 0 (of_a asked) (77 ∷ 65 ∷ []) (85 ∷ []) (0 ∷ []) 0 1
        ≡ Some ApiErr.NotReadable }
    ensures no_vertex { refusal_of_write_data repeating 0 (of_a asked) (77 ∷ 65 ∷ []) (85 ∷ []) (0 ∷ 1 ∷ []) []
        ≡ Some (ApiErr.BadVertex 1 1) }
    ensures granted { refusal_of_begin_advance repeating 0 (of_a asked) 10 ≡ None }
    ensures most { most_step (of_a asked) ≡ 10 }
    ensures read { rows_read repeating 0 (of_a asked) (entry 1 0) (0 ∷ []) 10 ≡ pos 7 ∷ [] }
{}

/// An event that is put back is handed out again, and all else is as before.
pub fn an_event_that_is_put_back()
    ensures { of_a (stepped ++ hands_out ∷ puts_back (Post ((one 10 (pos 5) ∷ []) ∷ [])) ∷ []) ≡ of_a stepped }
{}

/// A participant that has stopped may finalize, and set no vertex.
pub fn a_participant_that_stops()
    ensures ends { (of_a stopped).phase ≡ Phase.Stopped }
    ensures no_error { ending_of repeating 0 (of_a []) Over StopKind ≡ None }
    ensures refused { refusal_of_set_vertex repeating 0 (of_a stopped) (77 ∷ 65 ∷ []) at_origin
        ≡ Some (ApiErr.WrongPhase 0 6) }
    ensures through { (of_a (stopped ++ finalizes ∷ [])).phase ≡ Phase.Final }
{}

/// Of a vertex that was written twice the last value is posted, and zero where nothing was written
/// again; a window that is repeated begins anew, and reads on the line between its samples.
pub fn a_window_that_is_repeated()
    ensures posts { (of_a two_steps).queue ≡ Post ((one 4 (pos 6) ∷ one 10 (pos 0) ∷ []) ∷ []) ∷ Judge ∷ [] }
    ensures reads_checkpoint { reads_checkpoint repeating 0 (of_a again) ≡ true }
    ensures no_writing { writes_checkpoint repeating 0 (of_a again) ≡ false }
    ensures not_complete { (of_a again).complete ≡ false }
    ensures reads { rows_read repeating 0 (of_a again) (entry 1 0) (0 ∷ []) 5 ≡ pos 12 ∷ [] }
    ensures source { source_of repeating 0 (of_a again) 0 ≡ (1, 1) }
    ensures complete { (of_a converged).complete ≡ true }
    ensures finished { (of_a converged).phase ≡ Phase.Done }
    ensures no_step { most_step (of_a converged) ≡ 0 }
    ensures steps { (of_a converged).steps ≡ 3 }
{}

/// Who is cut has ended, and nothing waits any more.
pub fn a_participant_that_is_cut()
    ensures ends { (of_a cut_off).phase ≡ Phase.Stopped }
    ensures nothing_waits { (of_a cut_off).queue ≡ [] }
    ensures error { ending_of repeating 0 (of_a stepped) (Cut 1) JudgeKind ≡ Some (ApiErr.PeerEnded 1) }
{}

/// Where a sum of mapped values is out of range a Stop with that fault waits in place of the post, and
/// its reply is answered as an overflow.
pub fn a_mapping_that_overflows()
    ensures stops { (of_summing greatest_twice).queue ≡ Stop (ByFault (WriteMap 0 1 1 0 10 0 0)) ∷ [] }
    ensures waits { (of_summing greatest_twice).phase ≡ Phase.Pending }
    ensures error { ending_of summing 0 (of_summing greatest_twice) Over StopKind
        ≡ Some (ApiErr.Overflow (WriteMap 0 1 1 0 10 0 0)) }
    ensures ends { (of_summing (greatest_twice ++ done Over)).phase ≡ Phase.Stopped }
{}
