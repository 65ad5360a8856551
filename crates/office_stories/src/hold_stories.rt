//! Holds and their targets.

pub(crate) const HOLDS: &str = r#"
# The least hold in byte order is told
## at the desk of the base office
2024-01-02 place-hold H-2 = done
2024-01-02 place-hold H-10 = done
2024-01-02 place-hold Z = done
2024-01-02 place-hold a = done
2024-01-02 hold-on a record 1 = done
2024-01-02 hold-on Z record 1 = done
2024-01-02 hold-on H-2 record 1 = done
2024-01-02 hold-on H-10 record 1 = done
record 1 has "held":"H-10"
2024-01-02 lift-hold H-10 = done
record 1 has "held":"H-2"
2024-01-02 lift-hold H-2 = done
record 1 has "held":"Z"
2024-01-02 lift-hold Z = done
record 1 has "held":"a"
2024-01-02 lift-hold a = done
record 1 has "held":null

# A held class is not left
## at the desk of the base office
2024-01-02 place-hold H-9 = done
2024-01-02 hold-on H-9 class FIN = done
2024-01-02 reclassify record 1 LEG = refused 11
2024-01-02 reclassify record 1 FIN = done
2024-01-02 reclassify record 1 - = done
2024-01-02 reclassify aggregation 1 LEG = refused 11
2024-01-02 reclassify aggregation 1 FIN = done
record 1 has "held":"H-9"
record 2 has "held":null

# A held aggregation may get another class and stays held
## at the desk of the base office
2024-01-02 place-hold H-9 = done
2024-01-02 hold-on H-9 aggregation 1 = done
2024-01-02 reclassify aggregation 1 LEG = done
record 1 has "held":"H-9"

# Of a lifted hold the least refusal is told
## at the desk of the base office
2024-01-02 place-hold H-1 = done
2024-01-02 place-hold H-1 = refused 4
2024-01-02 hold-on H-1 record 1 = done
2024-01-02 hold-off H-1 record 2 = refused 5
2024-01-02 hold-on H-1 class NON = refused 5
2024-01-02 lift-hold H-1 = done
2024-01-02 lift-hold H-1 = refused 12
2024-01-02 lift-hold H-2 = refused 5
2024-01-02 hold-on H-1 record 99 = refused 5
2024-01-02 hold-on H-1 record 1 = refused 4
2024-01-02 hold-on H-1 record 2 = refused 12
2024-01-02 hold-off H-1 record 1 = refused 12

# A destroyed record gets no hold and is told again
## at the desk of the base office
2025-01-02 confirm 1 destroy = done
2025-01-02 open-run = number 1
2025-01-02 run-step = step 1 destroyed
2025-01-02 place-hold H-1 = done
2025-01-02 hold-on H-1 record 1 = refused 13
2025-01-02 add-record r1 1 abc = same 1
"#;
