//! The laws of the steps of a run: the text that `steps` tells of an input is the lines of steps
//! that a client folds to the path of the head. The functions have no body: the contract of each
//! is the law.
#![tactic(auto)]

ghost use Rattle.step_laws.specs.Laws.{
  StepsTold,
  StepsFollow,
  StepsFromScratch,
  AllAreReceived,
  LinesBringBlocks,
  StepTextFromScratch,
};

/// The text of a run is the lines of its steps.
pub fn steps_told()
    ensures { StepsTold }
{}

/// The steps of a run lead a client to the head of the world that the run leaves.
pub fn steps_follow()
    ensures { StepsFollow }
{}

/// The steps of a run from nothing lead a client to the head of the order from scratch.
pub fn steps_from_scratch()
    ensures { StepsFromScratch }
{}

/// Where no block of a run is refused, all are received.
pub fn all_are_received()
    ensures { AllAreReceived }
{}

/// The blocks that lines bring are blocks.
pub fn lines_bring_blocks()
    ensures { LinesBringBlocks }
{}

/// The step text of a whole input leads a client to the head of the order from scratch.
pub fn step_text_from_scratch()
    ensures { StepTextFromScratch }
{}
