//! Contents and what is read of records, before a run and after it.

pub(crate) const CONTENTS: &str = r#"
# Contents stay until their records are ended, and a held one until its last hold is gone
## at the desk of the base office
content 1 is "abc"
content 2 is ""
content 3 is "abc"
2025-01-02 place-hold H-9 = done
2025-01-02 hold-on H-9 class LEG = done
2025-01-02 place-hold H-2 = done
2025-01-02 hold-on H-2 record 2 = done
2025-01-02 confirm 1 destroy = done
2025-01-02 confirm 2 destroy = done
2025-01-02 confirm 3 destroy = done
2025-01-02 open-run = number 1
2025-01-02 run-step = step 1 destroyed
2025-01-02 run-step = step 2 skipped
2025-01-02 run-step = step 3 destroyed
2025-01-02 run-step = closed 1
content 1 is none
content 2 is ""
content 3 is none
certificate 1 bytes 501
## at the desk
content 1 is none
content 2 is ""
content 3 is none
certificate 1 bytes 501
2025-01-02 lift-hold H-2 = done
2025-01-02 open-run = number 2
2025-01-02 run-step = step 2 skipped
2025-01-02 run-step = closed 2
2025-01-02 hold-off H-9 class LEG = done
2025-01-02 open-run = number 3
2025-01-02 run-step = step 2 destroyed
2025-01-02 run-step = closed 3
content 1 is none
content 2 is none
content 3 is none
content 4 is none

# A record is told with its length and its digest
## at the desk of the base office
record 1 has "digest":"ba7816bf8f01cfea414140de5dae2223b00361a396177a9cb410ff61f20015ad"
record 1 has "length":3
record 2 has "digest":"e3b0c44298fc1c149afbf4c8996fb92427ae41e4649b934ca495991b7852b855"
record 2 has "length":0
record 4 is none

# An ended record has the entry that ended it
## at the desk of the base office
2025-01-02 confirm 1 destroy = done
2025-01-02 confirm 3 destroy = done
2025-01-02 place-hold H = done
2025-01-02 hold-on H record 3 = done
2025-01-02 open-run = number 1
2025-01-02 run-step = step 1 destroyed
2025-01-02 run-step = step 3 skipped
record 1 has "ended":{"outcome":"destroyed","run":1}
record 3 has "ended":null
entries is run 1 record 1 destroyed; run 1 record 3 skipped;

# The due list goes by due day and then by number
## at the desk of the base office
2024-03-01 add-schedule L last-addition days 30 destroy = done
2024-03-01 set-record-schedule 3 L = done
due-list 2024-02-01 is [3]
due-list 2025-01-02 is [3, 1, 2]
"#;
