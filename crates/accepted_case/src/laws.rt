//! What is true of the definitions alone, as laws, which the prover checks. The calls do nothing.
ghost use Rattle.case_rules.specs.SuitedCases.{SuitParticipants, HaveFewVertices};
ghost use Rattle.accepted_case.specs.IsAcceptedCase.{IsAcceptedCase};
ghost use Rattle.accepted_case.specs.declared.parts.AcceptedCase.{AcceptedCase};

/// What an accepted case gives to those who make its meshes and its solvers: each participant has its
/// case, which suits it, and each mesh has 1 to 10,000 vertices.
pub fn an_accepted_case_suits_its_participants()
    ensures suited { (accepted : AcceptedCase) → IsAcceptedCase accepted → SuitParticipants accepted.config accepted.cases }
    ensures vertices { (accepted : AcceptedCase) → IsAcceptedCase accepted → HaveFewVertices accepted.cases }
{}
