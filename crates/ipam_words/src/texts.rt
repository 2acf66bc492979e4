/// The text that `--help` writes.
pub const HELP: &str = "\
Pod addresses, handed out once.

Over the database, the file that IPAM_DB names, else ipam.db:
  ipam                 makes one CNI call; so does ipam cni
  ipam apply < FILE    applies an IPPool, an IPReservation, an IPAMConfiguration or a list of them, in JSON
  ipam show            shows the pools: how many addresses are used, and how many the blocks still have
  ipam show --json     the same to a program
  ipam show --metrics  writes numbers of pools, nodes and rows as Prometheus reads them
  ipam show blocks     shows the blocks: the node, how many addresses are used, and how many by another node
  ipam show IP         shows one address: free, reserved, in no pool, or in use and by what
  ipam show node NODE  shows the blocks of the node with their states, and its addresses in blocks of others
  ipam show handle HANDLE
                       shows the addresses of the handle, and its counts that stayed too high
  ipam show config     shows the configuration that is in force
  ipam show addresses  shows the addresses in use: the handle, and the network, node, namespace and pod
  ipam show addresses CIDR
                       the same of those in the CIDR
  ipam show addresses --node NODE
                       the same of those that are recorded with the node
  ipam show borrowed   shows the addresses in use whose node is not their block's
                       --json behind these seven shows the same to a program
  ipam get             writes every row: its key, its revision and its body
  ipam get KIND        the same of one kind: config, pools, reservations, block, affinity or handle
  ipam routes NODE     writes the blocks that are confirmed to the node
  ipam release NODE CIDR
                       releases the node's affinity to the block
  ipam audit N         writes which counts and affinities are left over, with N workers (1 to 16)
  ipam serve ADDRESS N serves CNI calls and requests at ADDRESS, by N workers (1 to 16)

Without it:
  ipam call ADDRESS    makes one CNI call of the daemon at ADDRESS
  ipam play < SCRIPT   plays a script of datastore calls, and writes the journal of what happened
  ipam gen N           runs N drawn requests and a collection, and writes a summary
  ipam --help          writes this; so ipam --version the version

ADDRESS is the path of a socket file, from /, or HOST:PORT for TCP. While a daemon holds the database, apply,
show, get, routes and release ask it: ipam --daemon ADDRESS WORDS, or with IPAM_DAEMON=ADDRESS set.
";

/// The text that `--version` writes: the program and its version, with a line feed.
pub const VERSION: &str = "ipam 0.1.0\n";
