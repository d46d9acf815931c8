//! Which pictures are crowded, colours, and lists of adapters, computed. Each function does nothing: its contract is the example.

ghost use Rattle.fabric_graph.specs.Examples.{ColoursAreRepeated, FewAdaptersMakeNoList, ManyCablesAreACrowd};

/// The colours of the first partitions, and of the thirteenth.
pub fn colours_are_repeated()
    ensures { ColoursAreRepeated }
{}

/// Three adapters and four.
pub fn few_adapters_make_no_list()
    ensures { FewAdaptersMakeNoList }
{}

/// 200 cables and 201.
pub fn many_cables_are_a_crowd()
    ensures { ManyCablesAreACrowd }
{}
