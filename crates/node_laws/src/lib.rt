//! Laws of the nodes of the mesh: which keys occur, what their numbers are, and how nodes and pieces go by layers.
//!
//! Each law is the contract of a function that does nothing. The definitions are those of the crate `definitions`.
#![tactic(auto)]

ghost use Rattle.node_laws.specs.Laws.{CountsBelow, KeysAreBelow, KeysJoin, LayersCountPieces, LayersHaveKeys, LayersHavePieces, LayersHaveUsedKeys, MinusVerticesAreNoNodes, NodesHaveReasons, NodesStandInDomain, NumbersAreRanks, NumbersByVertex, NumbersLeadBack, PieceCountsByShape, PieceCountsBySigns, PiecesJoin, PiecesUseNearLayers, PiecesUseNodes, PlusVerticesAreNodes, StatesArePadded, UsedByReach, UsedNodesOccur};

/// No vertex of the padding is Plus, whatever the field and the shares.
pub fn states_are_padded()
    ensures { StatesArePadded }
{}

/// A key occurs in the mesh exactly where it has a reason.
pub fn nodes_have_reasons()
    ensures { NodesHaveReasons }
{}

/// What is read off the states of a vertex and its neighbours is true exactly of the nodes that occur.
pub fn used_nodes_occur()
    ensures { UsedNodesOccur }
{}

/// Whether a node occurs is read off the states of its layer, the two below and the two above.
pub fn used_by_reach()
    ensures { UsedByReach }
{}

/// Each Plus vertex is a node.
pub fn plus_vertices_are_nodes()
    ensures { PlusVerticesAreNodes }
{}

/// No Minus vertex is a node.
pub fn minus_vertices_are_no_nodes()
    ensures { MinusVerticesAreNoNodes }
{}

/// A node of a lattice tetrahedron's pieces is a node of the mesh.
pub fn pieces_use_nodes()
    ensures { PiecesUseNodes }
{}

/// The keys that occur are of the vertices that there are.
pub fn keys_are_below()
    ensures { KeysAreBelow }
{}

/// A node stands at a vertex in the domain, or on an edge within it whose ends are Plus and Minus.
pub fn nodes_stand_in_domain()
    ensures { NodesStandInDomain }
{}

/// The number of a node is how many lower keys occur.
pub fn numbers_are_ranks()
    ensures { NumbersAreRanks }
{}

/// The number of a node is the number of those of lower vertices, and of those of its own vertex with lower directions.
pub fn numbers_by_vertex()
    ensures { NumbersByVertex }
{}

/// The number of a node leads back to its key, so that different nodes have different numbers.
pub fn numbers_lead_back()
    ensures { NumbersLeadBack }
{}

/// The nodes of a layer are those of its ids' keys that occur.
pub fn layers_have_keys()
    ensures { LayersHaveKeys }
{}

/// The nodes of a layer are read off the states of the layer, the two below it and the two above.
pub fn layers_have_used_keys()
    ensures { LayersHaveUsedKeys }
{}

/// All nodes are those of each layer, one layer after another.
pub fn keys_join()
    ensures { KeysJoin }
{}

/// Below a layer there are as many nodes as the layers below it have together.
pub fn counts_below()
    ensures { CountsBelow }
{}

/// All pieces are those of each layer, one layer after another.
pub fn pieces_join()
    ensures { PiecesJoin }
{}

/// The pieces of a layer are read off the states of the layer, the two below it and the two above.
pub fn layers_have_pieces()
    ensures { LayersHavePieces }
{}

/// The nodes of a layer's pieces are nodes of the mesh, in the layer or the two above it.
pub fn pieces_use_near_layers()
    ensures { PiecesUseNearLayers }
{}

/// How many pieces a lattice tetrahedron has follows from its four signs alone.
pub fn piece_counts_by_signs()
    ensures { PieceCountsBySigns }
{}

/// How many pieces a lattice tetrahedron has follows from how many of its vertices are Plus and how many are Minus.
pub fn piece_counts_by_shape()
    ensures { PieceCountsByShape }
{}

/// How many pieces a layer has is read off the states of the layer, the two below it and the two above.
pub fn layers_count_pieces()
    ensures { LayersCountPieces }
{}
