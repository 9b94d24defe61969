// Tables of edges: the limits of the kinds of record, and the numbers of readers, on every scheme.
#![tactic(auto)]

#[cfg(test)]
mod record_edges;
#[cfg(test)]
mod scheme_edges;
