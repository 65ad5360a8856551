//! A thousand holds, a thousand classes, and a thousand targets of one hold.

pub(crate) const LIMITS: &str = r#"
# There are no more than 1000 holds, lifted ones counted
## at the desk
2024-01-02 place-hold H<n> = done for each <n> of 1 to 1000
2024-01-02 place-hold H = refused 6
2024-01-02 place-hold H1000 = refused 4
2024-01-02 lift-hold H1 = done
2024-01-02 place-hold H = refused 6

# A hold has no more than 1000 targets
## at the desk
2024-01-02 add-schedule D1 added years 1 destroy = done
2024-01-02 place-hold H = done
2024-01-02 add-class C<n> D1 = done for each <n> of 1 to 1000
2024-01-02 add-class C D1 = refused 6
2024-01-02 hold-on H class C<n> = done for each <n> of 1 to 1000
2024-01-02 add-root A C1 = number 1
2024-01-02 hold-on H aggregation 1 = refused 6
2024-01-02 hold-on H class C1 = refused 4
2024-01-02 hold-on H aggregation 2 = refused 5
2024-01-02 hold-off H class C1 = done
2024-01-02 hold-on H aggregation 1 = done
2024-01-02 hold-off H aggregation 1 = done
2024-01-02 hold-off H aggregation 1 = refused 5
"#;
