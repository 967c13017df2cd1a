//! The gate that a cluster passes at each instant.

/// Stands before the clusters' instants. The activity that runs a cluster passes the gate once at
/// each instant that the cluster comes to, before the cluster's first step there.
pub trait Gate {
    fn pass(&self, cluster: u32, instant: u32);
}
