//! The law of all stations.

ghost use Rattle.vk_cluster.specs.Law.{ClustersRun};

/// For every list of events that a cluster stands for, the steps of its history are a run of the one-machine kernel with exactly what
/// the processes see of it.
pub fn clusters_run()
    ensures { ClustersRun }
{}
