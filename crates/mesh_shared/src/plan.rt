//! The work of the meshers in a run, and the limits at which threads stop.
ghost use Rattle.std.specs.Prelude.{◌≡◌, None};
ghost use Rattle.mesh_shared.specs.MesherRuns.{words_in};

/// The work of the meshers while scripts run. In each of its rounds, a mesher takes the views of its classes, searches
/// the views, and meshes each pair that was found.
#[derive(Drop)]
pub struct MeshPlan {
    /// The greatest number of rounds in a search (`--probe`).
    pub t: u32,
    /// The number of rounds of each mesher. In a round a mesher searches and meshes once.
    pub rounds: u32,
    /// The number of threads that share a search, 1 to 16.
    pub workers: u32,
    /// The words that shuffle the candidates of searches, 256 for each round. Missing words count as 0.
    pub words: Vec<u64>,
    /// The number of meshers, 1 to 10. Classes are numbered by size from 0. Mesher `q` meshes the classes whose number
    /// modulo the number of meshers is `q`.
    pub meshers: u32,
}

impl MeshPlan {
    /// Returns the words of a round: 256 words, or fewer if the plan doesn't have that many left.
    pub(crate) fn words_of(&self, round: u32) -> &[u64]
        ensures { result.now ≡ words_in self.now.words.items round }
    {
        let all = self.words.as_slice();
        let first = all.len().min(round as usize * WORDS_A_ROUND);
        let end = all.len().min(first + WORDS_A_ROUND);
        &all[first..end]
    }
}

/// The number of words of a round.
const WORDS_A_ROUND: usize = 256;

/// The limits at which the threads of a run stop. `None` means no limit.
#[derive(Clone, Copy)]
pub struct Limits {
    /// The number of calls after which a mesher ends, even within a mesh. Refused calls aren't counted.
    pub calls: Option<u32>,
    /// The greatest number of attempts that a worker makes at a command, 1 or more.
    pub tries: Option<u32>,
}

impl Limits {
    /// Returns limits that stop no thread.
    pub fn none() -> Limits
        ensures calls { result.calls ≡ None }
        ensures tries { result.tries ≡ None }
    {
        Limits {
            calls: None,
            tries: None,
        }
    }
}
