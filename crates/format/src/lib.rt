// What the survey of a cue answers, by how pods are laid out; and laws of that layout, each on the contract of a function
// that does nothing else.
#![tactic(auto)]

ghost use Rattle.std.specs.Prelude.{◌≡◌, ◌≤◌, length, MatchResult};
ghost use Rattle.pods.specs.Survey.{answered, survey_of};
ghost use Rattle.format.specs.Laws.{NoneLaid, OneLaid, RestIsFree, SurveyAcceptsLaid};
ghost use Rattle.format.specs.Lines.{LinesHold};
ghost use Rattle.format.specs.Places.{PodsChained};

use pods::Surveyed;
use refusals::Refusal;

// The survey of a cue: accepted are just the bytes at whose front a tree of pods is laid out.
pub fn survey(bytes: &[u8]) -> Result<Surveyed, Refusal>
    ensures answer { answered result ≡ survey_of bytes.now }
    ensures laid { MatchResult result (λ s. OneLaid bytes.now s.rows s.used) (λ _. length bytes.now ≤ 65536 → NoneLaid bytes.now) }
{
    pods::survey(bytes)
}

// Within the limit of bytes a survey accepts what is laid out, and nothing else.
pub fn survey_accepts_laid()
    ensures { SurveyAcceptsLaid }
{}

// What follows the bytes that a cue uses changes nothing.
pub fn rest_is_free()
    ensures { RestIsFree }
{}

// The pods of a container stand one after the other, from its start to its end.
pub fn pods_chained()
    ensures { PodsChained }
{}

// What the worked lines say.
pub fn lines_hold()
    ensures { LinesHold }
{}
