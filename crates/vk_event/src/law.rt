//! Laws about the texts of scenarios.

ghost use Rattle.vk_event.specs.ScenarioLaws.{LawfulScenariosHaveTexts, OnlyLawfulScenariosAreRead, ScenariosAreSpelled, ScenariosReadBack};

/// Each text of a lawful scenario is read as it, there is one, and what is read is lawful.
pub fn scenarios_are_read_again()
    ensures back { ScenariosReadBack }
    ensures some { LawfulScenariosHaveTexts }
    ensures lawful { OnlyLawfulScenariosAreRead }
{}

/// No other text is read as a scenario than those of it, but the same without their last line feed. It may have several, since
/// lines of tasks of different processes may stand in any order.
pub fn scenarios_are_spelled()
    ensures { ScenariosAreSpelled }
{}
