//! The law of the walk through a tree. It computes nothing: what it says is its contract.
ghost use Rattle.pip_model.specs.Dump.{MeetsAll, MeetsChildren};
ghost use Rattle.pip_model.specs.Lists.{In};
ghost use Rattle.pip_model.specs.Sound.{IsSound};
ghost use Rattle.pip_model.specs.Tree.{Node, Tree, nodes};

/// The walk meets all partitions and nothing else, each once; at each of them it meets exactly the children, in the
/// rising order of their descriptors' addresses.
pub fn law_walk()
    ensures all { (t : Tree) → IsSound t → MeetsAll t }
    ensures children { (t : Tree) (x : Node) → IsSound t → In x (nodes t) → MeetsChildren t x }
{}
