//! Lives of an office, whose disks stop in each stint, after each number of their calls in turn.
//!
//! A closing shuts the store at each of the seven calls by which the log is begun anew, and at the
//! sync of the database file before these. These files have fewer pages than an opening keeps in
//! memory, so it reads none of them again, and none is `unread`.

/// From no file on, and acts.
pub(crate) const LIVES_OF_ACTS: &str = "
# A life that begins with no file
## lived while disks stop
nothing = none ; 2024-01-02 add-schedule D1 added years 1 destroy = done ; 2024-01-03 add-class FIN D1 = done, at least 70, unread 0, shut 19, begun 101
## at the desk
2024-01-03 add-class FIN D1 = refused 4

# A life in which records are added
## at the desk
2024-01-02 add-schedule D1 added years 1 destroy = done
2024-01-03 add-class FIN D1 = done
## closed
## lived while disks stop
2024-01-04 add-root A FIN & 2024-01-05 add-record r1 1 abc = number 1 & number 1 ; 2024-01-06 add-record r2 1 - = number 2, at least 50, unread 0, shut 13, begun 0
## at the desk
content 1 is \"abc\"
record 2 has \"status\":\"here\"
";

/// A run, resumed again and again.
pub(crate) const LIVES_OF_RUNS: &str = "
# A life in which a run is opened and resumed
## at the desk of the base office
2024-01-02 add-record r4 1 abc = number 4
2025-01-02 confirm <n> destroy = done for each <n> of 1 to 4
2025-01-02 place-hold H = done
2025-01-02 hold-on H record 2 = done
## closed
## lived while disks stop
2025-01-02 open-run = number 1 ; resume = closed 1 ; resume = refused 18, at least 60, unread 0, shut 17, begun 0
## at the desk
entries is run 1 record 1 destroyed; run 1 record 2 skipped; run 1 record 3 destroyed; run 1 record 4 destroyed;
certificate 1 has ENDED 3
";

/// From a file of version 1 on.
pub(crate) const LIVES_OF_MIGRATIONS: &str = "
# A life that begins with a file of version 1
## in the tables of the old base office
## closed
## lived while disks stop
nothing = none ; 2025-01-02 confirm 1 destroy & 2025-01-02 open-run & 2025-01-02 run-step = done & number 1 & step 1 destroyed, at least 60, unread 0, shut 16, begun 0
## read from the tables
SELECT * FROM schedules is none
SELECT * FROM schedules2 is D1;added;years;1;none;destroy;
## at the desk
content 1 is none
";
