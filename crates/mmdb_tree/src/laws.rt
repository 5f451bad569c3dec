//! Laws over the definitions.
ghost use Rattle.mmdb_tree.specs.Laws.{NodeReadsBack, ValueReadsBack};

/// The law that both records of a node that was written are read back. Calling it does nothing.
pub fn node_reads_back()
    ensures { NodeReadsBack }
{}

/// The law that each record of a tree that was written node by node is read back. Calling it does
/// nothing.
pub fn tree_reads_back()
    ensures { ValueReadsBack }
{
    node_reads_back();
}
