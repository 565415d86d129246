//! Laws about the texts of stations.

ghost use Rattle.vk_event.specs.NodeLaws.{NodesAreSpelled, NodesReadBack, OnlyLawfulNodesAreRead};

/// All texts of lawful logs that begin alike are read as them, and what is read is lawful.
pub fn nodes_are_read_again()
    ensures back { NodesReadBack }
    ensures lawful { OnlyLawfulNodesAreRead }
{}

/// No other text is read as logs than those of them, all with the same opening, but the same without their last line feed. The opening
/// may also tell a pool of 16.
pub fn nodes_are_spelled()
    ensures { NodesAreSpelled }
{}
